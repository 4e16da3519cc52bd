//! The arguments of the program.
ghost use Rattle.std.specs.Prelude.{◌≡◌, map, string_bytes, option_copied};
ghost use Rattle.std.specs.Result.{result_map_both};
ghost use Rattle.moka_replay.specs.Arguments.{path_of};

use moka_script::failure::Failure;

/// The path of the script's file, if the arguments name one. The first argument is the program's name.
///
/// # Errors
/// `Usage` if there are more arguments.
pub fn script_path(arguments: &[String]) -> Result<Option<&str>, Failure>
    ensures { result_map_both option_copied (λ failure. failure) result ≡ path_of (map string_bytes arguments.now) }
{
    match arguments {
        [] | [_] => Ok(None),
        [_, path] => Ok(Some(path.as_str())),
        _ => Err(Failure::Usage),
    }
}
