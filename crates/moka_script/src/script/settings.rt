//! The settings of a script.
ghost use Rattle.std.specs.Prelude.{◌≡◌, true, false, Some, None, if◌then◌else◌};
ghost use Rattle.moka_script.specs.Lex.{texts};
ghost use Rattle.moka_script.specs.Settings.{filled, raised, ids_given, ids_of, keeper_of, keeper_terms, numbered_setting, policy_of, policy_named, question_named, rule_line, rule_of, rule_said, setting_of};

use crate::first_ticket::FirstTicket;
use crate::lex::{alone, key_at, lone_number, number, number_or_none, small_number};
use crate::rules::{Question, Rule};
use crate::weigher::NumberWeigher;
use moka_parts::policy::EvictionPolicy;

/// What a script sets before its first call; `None` if it has no such line.
#[derive(Clone, Copy)]
pub struct Settings {
    /// The first ticket.
    pub first: Option<FirstTicket>,
    /// The greatest weight that the cache keeps.
    pub capacity: Option<u64>,
    /// How the cache chooses what stays.
    pub policy: Option<EvictionPolicy>,
    /// How long an entry lasts after it was last inserted, in nanoseconds.
    pub time_to_live: Option<u64>,
    /// How long an entry lasts after it was last inserted or read, in nanoseconds.
    pub time_to_idle: Option<u64>,
    /// What weighs the values.
    pub weigher: Option<NumberWeigher>,
    /// Whether a listener keeps the notices.
    pub listener: bool,
    /// Whether predicates are supported.
    pub invalidator: bool,
    /// Whether each identifier that is asked for is the same.
    pub repeats_ids: bool,
    /// The moment at which the cache is made.
    pub start: Option<u64>,
    /// What the housekeeper gives to its runs.
    pub keeper: Option<KeeperTerms>,
    /// Whether runs start by themselves.
    pub automatic: bool,
}

/// What the housekeeper gives to each run: its time limit in nanoseconds, its repeats and its batch.
#[derive(Clone, Copy)]
pub struct KeeperTerms {
    pub limit: u64,
    pub repeats: u32,
    pub batch: u32,
}

impl Settings {
    ghost use Rattle.std.specs.Prelude.{◌≡◌};
    ghost use Rattle.moka_script.specs.Settings.{no_settings, put_in};

    /// Nothing is set.
    pub fn new() -> Self
        ensures { result ≡ no_settings }
    {
        Settings {
            first: None,
            capacity: None,
            policy: None,
            time_to_live: None,
            time_to_idle: None,
            weigher: None,
            listener: false,
            invalidator: false,
            repeats_ids: false,
            start: None,
            keeper: None,
            automatic: false,
        }
    }

    /// The settings with one more, unless it is there already.
    pub fn with(mut self, setting: Setting) -> Option<Settings>
        ensures { result ≡ put_in self setting }
    {
        let is_new = match setting {
            Setting::First(first) => fill(&mut self.first, first),
            Setting::Capacity(capacity) => fill(&mut self.capacity, capacity),
            Setting::Policy(policy) => fill(&mut self.policy, policy),
            Setting::TimeToLive(nanos) => fill(&mut self.time_to_live, nanos),
            Setting::TimeToIdle(nanos) => fill(&mut self.time_to_idle, nanos),
            Setting::Weigh(weigher) => fill(&mut self.weigher, weigher),
            Setting::Listener => raise(&mut self.listener),
            Setting::Invalidator => raise(&mut self.invalidator),
            Setting::RepeatedIds => raise(&mut self.repeats_ids),
            Setting::Start(now) => fill(&mut self.start, now),
            Setting::Keeper(keeper) => fill(&mut self.keeper, keeper),
            Setting::Auto => raise(&mut self.automatic),
        };
        if is_new { Some(self) } else { None }
    }
}

/// Fills a place, unless it has a value already. Whether it had none.
fn fill<T: Copy>(place: &mut Option<T>, value: T) -> bool
    ensures filled { filled place.old value ≡ (if result then Some place.new else None) }
    ensures kept { result ≡ false → place.new ≡ place.old }
{
    if place.is_some() {
        return false;
    }
    *place = Some(value);
    true
}

/// Raises a flag, unless it is raised already. Whether it was not.
fn raise(flag: &mut bool) -> bool
    ensures raised { raised flag.old ≡ (if result then Some flag.new else None) }
    ensures set { flag.new ≡ true }
{
    let is_new = !*flag;
    *flag = true;
    is_new
}

/// A line that sets something.
#[derive(Clone, Copy)]
pub enum Setting {
    First(FirstTicket),
    Capacity(u64),
    Policy(EvictionPolicy),
    TimeToLive(u64),
    TimeToIdle(u64),
    Weigh(NumberWeigher),
    Listener,
    Invalidator,
    RepeatedIds,
    Start(u64),
    Keeper(KeeperTerms),
    Auto,
}

/// `keeper LIMIT REPEATS BATCH`
fn keeper(arguments: &[&str]) -> Option<Setting>
    ensures { result ≡ keeper_of (texts arguments.now) }
{
    match arguments {
        [limit, repeats, batch] => keeper_terms(limit, repeats, batch),
        _ => None,
    }
}

/// The housekeeper's terms that three words say.
fn keeper_terms(limit: &str, repeats: &str, batch: &str) -> Option<Setting>
    ensures { result ≡ keeper_terms limit.now repeats.now batch.now }
{
    let limit = number(limit)?;
    let repeats = small_number(repeats)?;
    let batch = small_number(batch)?;
    Some(Setting::Keeper(KeeperTerms {
        limit,
        repeats,
        batch,
    }))
}

/// `policy NAME`
fn policy(arguments: &[&str]) -> Option<Setting>
    ensures { result ≡ policy_of (texts arguments.now) }
{
    let [name] = arguments else {
        return None;
    };
    Some(Setting::Policy(policy_named(name)?))
}

/// The policy of that name, if there is one.
fn policy_named(name: &str) -> Option<EvictionPolicy>
    ensures { result ≡ policy_named name.now }
{
    match name {
        "lru" => Some(EvictionPolicy::lru()),
        "tinylfu" => Some(EvictionPolicy::tiny_lfu()),
        _ => None,
    }
}

/// `ids HOW`
fn ids(arguments: &[&str]) -> Option<Setting>
    ensures { result ≡ ids_of (texts arguments.now) }
{
    let [how] = arguments else {
        return None;
    };
    ids_given(how)
}

/// How identifiers are given, if there is such a way.
fn ids_given(how: &str) -> Option<Setting>
    ensures { result ≡ ids_given how.now }
{
    match how {
        "repeat" => Some(Setting::RepeatedIds),
        _ => None,
    }
}

/// The setting of that name, if there is one.
pub fn parse_setting(name: &str, arguments: &[&str]) -> Option<Setting>
    ensures { result ≡ setting_of name.now (texts arguments.now) }
{
    match name {
        "policy" => policy(arguments),
        "weigh" => alone(Setting::Weigh(NumberWeigher), arguments),
        "listener" => alone(Setting::Listener, arguments),
        "invalidator" => alone(Setting::Invalidator, arguments),
        "ids" => ids(arguments),
        "keeper" => keeper(arguments),
        "auto" => alone(Setting::Auto, arguments),
        _ => numbered_setting(name, lone_number(arguments)?),
    }
}

/// The setting of that name to a number alone, if there is one.
fn numbered_setting(name: &str, number: u64) -> Option<Setting>
    ensures { result ≡ numbered_setting name.now number }
{
    match name {
        "first" => Some(Setting::First(FirstTicket::new(number)?)),
        "capacity" => Some(Setting::Capacity(number)),
        "ttl" => Some(Setting::TimeToLive(number)),
        "tti" => Some(Setting::TimeToIdle(number)),
        "start" => Some(Setting::Start(number)),
        _ => None,
    }
}

/// `expire QUESTION KEY MOMENT ANSWER`
fn rule(arguments: &[&str]) -> Option<Rule>
    ensures { result ≡ rule_of (texts arguments.now) }
{
    match arguments {
        [question, key, moment, answer] => rule_said(question, key, moment, answer),
        _ => None,
    }
}

/// The rule that four words say.
fn rule_said(question: &str, key: &str, moment: &str, answer: &str) -> Option<Rule>
    ensures { result ≡ rule_said question.now key.now moment.now answer.now }
{
    let question = question_named(question)?;
    let (key, moment) = key_at(key, moment)?;
    let answer = number_or_none(answer)?;
    Some(Rule {
        question,
        key,
        moment: moment.0,
        answer,
    })
}

/// The question of that name, if there is one.
fn question_named(name: &str) -> Option<Question>
    ensures { result ≡ question_named name.now }
{
    match name {
        "create" => Some(Question::Create),
        "read" => Some(Question::Read),
        "update" => Some(Question::Update),
        _ => None,
    }
}

/// The rule of a line of that name, if it is one.
pub fn parse_rule(name: &str, arguments: &[&str]) -> Option<Rule>
    ensures { result ≡ rule_line name.now (texts arguments.now) }
{
    match name {
        "expire" => rule(arguments),
        _ => None,
    }
}
