//! Words of the command line that are judged before the command line is read, so that nothing else decides what they ask
//! for.
ghost use Rattle.std.specs.Prelude.{◌≡◌, [], ◌∷◌, Some, codes, map, nat_eq, string_bytes};
ghost use Rattle.std.specs.List.{starts_with};
ghost use Rattle.rbg_cli.specs.Wishes.{wish_asked};
ghost use Rattle.rbg_cli.specs.Words.{Asks, IsName, Wish, cut_file};

use crate::command::Command;

/// The command that the words ask for, if they are among those that are judged here. No word that begins with `-` is the
/// name of a file.
pub fn asked_by(words: &[String]) -> Option<Command<'_>>
    ensures { (wish : Wish) → Asks (map string_bytes words.now) wish → wish_asked result ≡ Some wish }
{
    match words {
        [] => Some(Command::RefereeInput),
        [command] => asked_alone(command.as_str()),
        [command, file] => asked_of_file(command.as_str(), file.as_str()),
        [command, first, second] => {
            asked_of_two(command.as_str(), first.as_str(), second.as_str())
        }
        [command, first, second, third] => asked_of_three(
            command.as_str(),
            first.as_str(),
            second.as_str(),
            third.as_str(),
        ),
        _ => None,
    }
}

/// What a command asks for with no other word.
fn asked_alone<'a>(command: &str) -> Option<Command<'a>>
    ensures { (wish : Wish) → Asks (command.now ∷ []) wish → wish_asked result ≡ Some wish }
{
    match command {
        "referee" => Some(Command::RefereeInput),
        _ => None,
    }
}

/// What a command asks for with one word.
fn asked_of_file<'a>(command: &str, file: &'a str) -> Option<Command<'a>>
    ensures { (wish : Wish) → Asks (command.now ∷ file.now ∷ []) wish → wish_asked result ≡ Some wish }
{
    match (command, file) {
        ("referee", "--cut") => Some(Command::Cut { file: None }),
        _ if is_option(file) => None,
        _ => asked_of_name(command, file),
    }
}

/// What a command asks for with the name of a file.
fn asked_of_name<'a>(command: &str, file: &'a str) -> Option<Command<'a>>
    requires { IsName file.now }
    ensures { (wish : Wish) → Asks (command.now ∷ file.now ∷ []) wish → wish_asked result ≡ Some wish }
{
    match command {
        "check" => Some(Command::Check { file }),
        "referee" => Some(Command::Referee { file }),
        "moves" => Some(Command::Moves { file }),
        "script" => Some(Command::Script { record_file: file }),
        _ => None,
    }
}

/// What a command asks for with two words.
fn asked_of_two<'a>(command: &str, first: &'a str, second: &'a str) -> Option<Command<'a>>
    ensures { (wish : Wish) → Asks (command.now ∷ first.now ∷ second.now ∷ []) wish
        → wish_asked result ≡ Some wish }
{
    if is_option(first) || is_option(second) {
        asked_by_option(command, first, second)
    } else {
        asked_of_record(command, first, second)
    }
}

/// What a command asks for with two words of which one is an option.
fn asked_by_option<'a>(command: &str, first: &'a str, second: &'a str) -> Option<Command<'a>>
    requires { ¬ (IsName first.now × IsName second.now) }
    ensures { (wish : Wish) → Asks (command.now ∷ first.now ∷ second.now ∷ []) wish
        → wish_asked result ≡ Some wish }
{
    match (command, first, second) {
        ("referee", _, "--cut") => asked_to_cut(first),
        ("referee", "--cut", _) => asked_to_cut(second),
        ("referee", "--record", _) if !is_option(second) => Some(Command::Recorded {
            file: None,
            target: second,
        }),
        _ => None,
    }
}

/// What a command asks for with the names of a description and a record.
fn asked_of_record<'a>(command: &str, file: &'a str, other: &'a str) -> Option<Command<'a>>
    requires { IsName file.now × IsName other.now }
    ensures { (wish : Wish) → Asks (command.now ∷ file.now ∷ other.now ∷ []) wish
        → wish_asked result ≡ Some wish }
{
    match command {
        "replay" => Some(Command::Replay {
            file,
            record_file: other,
        }),
        "migrate" => Some(Command::Migrate {
            file,
            record_file: other,
        }),
        "moves" => Some(Command::MovesAfter {
            file,
            record_file: other,
        }),
        _ => None,
    }
}

/// What a command asks for with three words.
fn asked_of_three<'a>(
    command: &str,
    first: &'a str,
    second: &'a str,
    third: &'a str,
) -> Option<Command<'a>>
    ensures { (wish : Wish) → Asks (command.now ∷ first.now ∷ second.now ∷ third.now ∷ []) wish
        → wish_asked result ≡ Some wish }
{
    match (command, first, second) {
        ("referee", _, _) if is_option(third) => None,
        ("referee", "--record", _) if !is_option(second) => Some(Command::Recorded {
            file: Some(third),
            target: second,
        }),
        ("referee", _, "--record") if !is_option(first) => Some(Command::Recorded {
            file: Some(first),
            target: third,
        }),
        _ => None,
    }
}

/// A match whose script may be cut off, of a file's description, if the word is a name.
fn asked_to_cut(file: &str) -> Option<Command<'_>>
    ensures { IsName file.now → wish_asked result ≡ Some (cut_file file.now) }
{
    if is_option(file) {
        None
    } else {
        Some(Command::Cut { file: Some(file) })
    }
}

/// Whether a word begins with `-`.
fn is_option(word: &str) -> bool
    ensures { result ≡ starts_with nat_eq word.now (codes "-") }
{
    word.as_bytes().starts_with(b"-")
}
