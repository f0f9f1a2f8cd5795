//! The words of the commands.

ghost use Rattle.std.specs.Prelude.{◌≡◌, map};
ghost use Rattle.rawk_commands.specs.Words as spec;

use crate::command::{Goal, Way};

/// What a word asks for.
#[derive(Clone, Copy)]
pub enum Verb {
    Break,
    Watch,
    Delete,
    Unwatch,
    Move(Way, Goal),
    Run,
    Print,
    Set,
    ReverseSet,
    Backtrace,
    Quit,
}

/// Each command with its short form.
static COMMANDS: [(&[u8], Verb); 31] = [
    (b"break", Verb::Break),
    (b"b", Verb::Break),
    (b"watch", Verb::Watch),
    (b"w", Verb::Watch),
    (b"delete", Verb::Delete),
    (b"d", Verb::Delete),
    (b"unwatch", Verb::Unwatch),
    (b"step", Verb::Move(Way::Forward, Goal::AnyPoint)),
    (b"s", Verb::Move(Way::Forward, Goal::AnyPoint)),
    (b"next", Verb::Move(Way::Forward, Goal::NoDeeper)),
    (b"n", Verb::Move(Way::Forward, Goal::NoDeeper)),
    (b"continue", Verb::Move(Way::Forward, Goal::StopOnly)),
    (b"c", Verb::Move(Way::Forward, Goal::StopOnly)),
    (b"finish", Verb::Move(Way::Forward, Goal::Shallower)),
    (b"reverse-step", Verb::Move(Way::Back, Goal::AnyPoint)),
    (b"rs", Verb::Move(Way::Back, Goal::AnyPoint)),
    (b"reverse-next", Verb::Move(Way::Back, Goal::NoDeeper)),
    (b"rn", Verb::Move(Way::Back, Goal::NoDeeper)),
    (b"reverse-continue", Verb::Move(Way::Back, Goal::StopOnly)),
    (b"rc", Verb::Move(Way::Back, Goal::StopOnly)),
    (b"reverse-finish", Verb::Move(Way::Back, Goal::Shallower)),
    (b"run", Verb::Run),
    (b"r", Verb::Run),
    (b"print", Verb::Print),
    (b"p", Verb::Print),
    (b"set", Verb::Set),
    (b"reverse-set", Verb::ReverseSet),
    (b"backtrace", Verb::Backtrace),
    (b"bt", Verb::Backtrace),
    (b"quit", Verb::Quit),
    (b"q", Verb::Quit),
];

fn lookup(mut table: &[(&[u8], Verb)], word: &[u8]) -> Option<Verb>
    ensures { result ≡ spec.lookup (map (λ e. (e.0.now, e.1)) table.entry.now) word.now }
{
    while let [entry, rest @ ..] = table {
        if word == entry.0 {
            return Some(entry.1);
        }
        table = rest;
    }
    None
}

/// What a word asks for, if it is a command.
#[tactic(auto, unfolding(crate::specs::Words::verb_of))]
pub fn verb_of(word: &[u8]) -> Option<Verb>
    ensures { result ≡ spec.verb_of word.now }
{
    lookup(&COMMANDS, word)
}
