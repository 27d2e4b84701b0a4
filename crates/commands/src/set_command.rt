//! The command `set`.
ghost use Rattle.std.specs.Prelude.{◌≡◌, ◌||◌, IfOk, IfErr};
ghost use Rattle.std.specs.Option.{option_map};
ghost use Rattle.std.specs.Str.Lossy.{utf8_lossy};
ghost use Rattle.commands.specs.Printed.{Holds, at_once, to_all, IsDone, HasFailed};
ghost use Rattle.commands.specs.SetCommand.{printed_set, printed_set_over, set_answering, IsSetAnswer, is_input, names_input, word_or, refusal_ending};

use crate::answer::{Answer, refusal_text, with_line_feed};
use crate::edge::{Outcome, RunFault, Sink, Source};
use crate::pieces::Text;
use crate::streams::Streams;
use gtid_report::{Fault, Refusal, set_function};
use std::alloc::{AllocError, Global};

/// How a refusal ends the command.
fn refusal_ending(refusal: &Refusal) -> Outcome
    ensures { result ≡ refusal_ending refusal.now }
{
    match refusal {
        Refusal::Usage => Outcome::Misused,
        _ => Outcome::Refused,
    }
}

/// What is printed for a function of sets.
fn set_answer(alloc: Global, function: &str, a: &str, b: Option<&str>) -> Result<Answer, AllocError>
    ensures { IfOk result (λ answer. Holds answer (printed_set function.now a.now (option_map (λ w. w.now) b.entry))) }
{
    match set_function(alloc, function, a, b) {
        Ok(line) => Ok(Answer {
            outcome: Outcome::Done,
            text: Text::of(alloc, with_line_feed(line)?),
        }),
        Err(Fault::Memory) => Err(AllocError),
        Err(Fault::Refused(refusal)) => Ok(Answer {
            outcome: refusal_ending(&refusal),
            text: Text::of(alloc, refusal_text(alloc, &refusal)?),
        }),
    }
}

/// Whether a word denotes standard input.
fn is_input(word: &str) -> bool
    ensures { result ≡ is_input word.now }
{
    word.as_bytes() == b"-".as_slice()
}

/// Whether a word that may be given denotes standard input.
fn is_given_input(word: Option<&str>) -> bool
    ensures { result ≡ names_input (option_map (λ w. w.now) word.entry) }
{
    match word {
        Some(word) => is_input(word),
        None => false,
    }
}

/// A word, or what was read if the word denotes that.
fn word_or<'a>(input: &'a str, word: &'a str) -> &'a str
    ensures { result.now ≡ word_or input.now word.now }
{
    if is_input(word) { input } else { word }
}

/// What is printed for a function of sets, one of whose words may denote this input.
fn answer_over(
    alloc: Global,
    function: &str,
    a: &str,
    b: Option<&str>,
    input: &str,
) -> Result<Answer, AllocError>
    ensures { IfOk result (λ answer. Holds answer (printed_set_over function.now a.now (option_map (λ w. w.now) b.entry) input.now)) }
{
    let first = word_or(input, a);
    match b {
        Some(b) => set_answer(alloc, function, first, Some(word_or(input, b))),
        None => set_answer(alloc, function, first, None),
    }
}

/// The same for bytes that were read; what in them is no UTF-8 is replaced.
fn answer_to(
    alloc: Global,
    function: &str,
    a: &str,
    b: Option<&str>,
    bytes: &[u8],
) -> Result<Answer, AllocError>
    ensures { IfOk result (λ answer. Holds answer (printed_set_over function.now a.now (option_map (λ w. w.now) b.entry) (utf8_lossy bytes.now))) }
{
    let input = String::from_utf8_lossy(alloc, bytes)?;
    answer_over(alloc, function, a, b, &input)
}

/// The same, once all of standard input is read.
fn run_over_input<S: Source, W: Sink>(
    alloc: Global,
    function: &str,
    a: &str,
    b: Option<&str>,
    streams: &mut Streams<S, W>,
) -> Result<Outcome, RunFault>
    ensures done { IfOk result (IsDone (to_all (IsSetAnswer function.now a.now (option_map (λ w. w.now) b.entry))) streams.old streams.new) }
    ensures failed { IfErr result (HasFailed (to_all (IsSetAnswer function.now a.now (option_map (λ w. w.now) b.entry))) streams.old streams.new) }
{
    let bytes = streams.read_all(alloc)?;
    let Ok(answer) = answer_to(alloc, function, a, b, &bytes) else {
        return Err(RunFault::Memory);
    };
    streams.send(&answer)
}

/// The same, with nothing read.
fn run_at_once<S: Source, W: Sink>(
    alloc: Global,
    function: &str,
    a: &str,
    b: Option<&str>,
    streams: &mut Streams<S, W>,
) -> Result<Outcome, RunFault>
    ensures done { IfOk result (IsDone (at_once (printed_set function.now a.now (option_map (λ w. w.now) b.entry))) streams.old streams.new) }
    ensures failed { IfErr result (HasFailed (at_once (printed_set function.now a.now (option_map (λ w. w.now) b.entry))) streams.old streams.new) }
{
    let Ok(answer) = set_answer(alloc, function, a, b) else {
        return Err(RunFault::Memory);
    };
    streams.send(&answer)
}

/// Writes the line of a function of sets, or that of its refusal, and nothing else. A word `-` is all of standard input (our own rule), of
/// which nothing is read if there is no such word; bytes of it that are no UTF-8 are read as U+FFFD, which the grammar refuses at its
/// place.
pub fn run_set<S: Source, W: Sink>(
    alloc: Global,
    function: &str,
    a: &str,
    b: Option<&str>,
    streams: &mut Streams<S, W>,
) -> Result<Outcome, RunFault>
    ensures done { IfOk result (IsDone (set_answering function.now a.now (option_map (λ w. w.now) b.entry)) streams.old streams.new) }
    ensures failed { IfErr result (HasFailed (set_answering function.now a.now (option_map (λ w. w.now) b.entry)) streams.old streams.new) }
{
    if is_input(a) || is_given_input(b) {
        run_over_input(alloc, function, a, b, streams)
    } else {
        run_at_once(alloc, function, a, b, streams)
    }
}
