//! The expiry of a script: rules, each of which answers one question about one key at one moment.
ghost use Rattle.std.specs.Prelude.{◌≡◌, option_map};
ghost use Rattle.std.specs.Duration.{as_nanos};
ghost use Rattle.moka_script.specs.Rules.{answer_by, fits, is_same_question};

use crate::word::Word;
use moka_parts::policy::{Expiry, Instant};
use std::marker::Model;
use std::time::Duration;

/// What an expiry is asked about.
#[derive(Clone, Copy)]
pub enum Question {
    Create,
    Read,
    Update,
}

/// Answers a question about a key at a moment with a time in nanoseconds, or with none.
#[derive(Clone, Copy)]
pub struct Rule {
    pub question: Question,
    pub key: u32,
    pub moment: u64,
    pub answer: Option<u64>,
}

/// An expiry that answers with the first rule that fits, and without one as an expiry's default does. Seen as its
/// rules.
#[derive(Drop)]
pub struct Rules {
    rules: Vec<Rule>,
}

impl Model for Rules {
    ghost use Rattle.std.specs.Prelude.{List};
    ghost use Rattle.moka_script.specs.declared.rules.Rule.{Rule};

    ghost Value = { List Rule };

    ghost view = { λ a. a.rules.items };
}

impl Rules {
    /// The expiry of these rules.
    pub fn new(rules: Vec<Rule>) -> Rules
        ensures { result ≡ rules.items }
    {
        Rules { rules }
    }

    /// What the first rule that fits answers, if there is one.
    fn answer(&self, question: Question, key: u32, now: Instant) -> Option<Option<Duration>>
        ensures { option_map (λ a. option_map as_nanos a) result ≡ answer_by self.now question key now.0 }
    {
        let found = self
            .rules
            .iter()
            .find(|rule| fits(**rule, question, key, now.0));
        Some(found?.answer.map(Duration::from_nanos))
    }
}

/// Whether the rule answers this question about this key at this moment.
fn fits(rule: Rule, question: Question, key: u32, moment: u64) -> bool
    ensures { result ≡ fits question key moment rule }
{
    is_same_question(rule.question, question) && rule.key == key && rule.moment == moment
}

/// Whether both are the same question.
fn is_same_question(one: Question, other: Question) -> bool
    ensures { result ≡ is_same_question one other }
{
    match (one, other) {
        (Question::Create, Question::Create)
        | (Question::Read, Question::Read)
        | (Question::Update, Question::Update) => true,
        _ => false,
    }
}

impl Expiry<u32, Word> for Rules {
    ghost use Rattle.moka_script.specs.Rules.{created_by, read_by, updated_by};

    ghost created = { created_by };

    ghost read = { read_by };

    ghost updated = { updated_by };

    fn expire_after_create(
        &self,
        key: &u32,
        _value: &Word,
        created_at: Instant,
    ) -> Option<Duration> {
        self.answer(Question::Create, *key, created_at)?
    }

    fn expire_after_read(
        &self,
        key: &u32,
        _value: &Word,
        read_at: Instant,
        duration_until_expiry: Option<Duration>,
        _last_modified_at: Instant,
    ) -> Option<Duration> {
        match self.answer(Question::Read, *key, read_at) {
            Some(answer) => answer,
            None => duration_until_expiry,
        }
    }

    fn expire_after_update(
        &self,
        key: &u32,
        _value: &Word,
        updated_at: Instant,
        duration_until_expiry: Option<Duration>,
    ) -> Option<Duration> {
        match self.answer(Question::Update, *key, updated_at) {
            Some(answer) => answer,
            None => duration_until_expiry,
        }
    }
}
