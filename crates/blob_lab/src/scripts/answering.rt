// Running the calls of a script, one after another.
ghost use Rattle.std.specs.Prelude.{◌≡◌, true, IfErr, OnOk, string_bytes};
ghost use Rattle.blob_script.specs.Readers.{has_begun};
ghost use Rattle.blob_lab.specs.Endings.{is_cut};
ghost use Rattle.blob_lab.specs.ScriptReading.{AnswersCall, IfCut, PrintsFrom, PrintsInputUpTo};
ghost use Rattle.blob_lab.specs.Scripts.{PrintsAll};
ghost use Rattle.blob_lab.specs.Streams.{IsReadToEnd, OfBytes, ToldEnding};

use super::lines::Lines;
use super::{Ahead, Listener};
use crate::{Ending, Input, Output};
use blob_faulty::Config;
use blob_lab_store::Lab;
use blob_script::Call;
use blob_script::script::print_reply;
use std::alloc::{AllocError, Global};
use std::io::Write;

/// Reads the preamble, creates the laboratory, and runs the calls.
pub(super) fn run_lines<R: Ahead, W: Write, L: Listener>(
    alloc: Global,
    input: &mut Input<R>,
    output: &mut Output<W>,
    listener: &mut L,
) -> Result<(), Ending>
    ensures cut { IfErr result (λ ending. is_cut ending ≡ true) }
    ensures told { ToldEnding result input.old input.new output.old output.new }
    ensures read { OnOk result (IsReadToEnd R.remaining input.old input.new) }
    ensures all { OnOk result (OfBytes R.remaining W.contents input.old output.old output.new PrintsAll) }
    ensures front { IfErr result (PrintsInputUpTo R.remaining W.contents input.old input.new output.old output.new) }
{
    let mut lines = Lines::new(alloc);
    let Some(first) = lines.next_call(input, output)? else {
        return Ok(());
    };
    let Ok(mut lab) = Lab::from_preamble(lines.reader.begin(), Config::default()) else {
        return Err(Ending::NoMemory);
    };
    let ran = answer_calls(alloc, &mut lab, first, listener, &mut lines, input, output);
    lab.end();
    ran
}

/// Runs each call and writes its reply before it reads the next line.
fn answer_calls<R: Ahead, W: Write, L: Listener>(
    alloc: Global,
    lab: &mut Lab,
    first: Call,
    listener: &mut L,
    lines: &mut Lines,
    input: &mut Input<R>,
    output: &mut Output<W>,
) -> Result<(), Ending>
    requires { has_begun lines.old.reader ≡ true }
    ensures cut { IfErr result (λ ending. is_cut ending ≡ true) }
    ensures told { ToldEnding result input.old input.new output.old output.new }
    ensures read { OnOk result (IsReadToEnd R.remaining input.old input.new) }
    ensures all { OnOk result (PrintsFrom R.remaining W.contents lab.old first lines.old.reader input.old output.old output.new) }
    ensures front { IfCut R.remaining W.contents lab.old first lines.old.reader input.old input.new output.old output.new result }
{
    let mut text = String::new(alloc);
    let mut call = first;
    'calls: loop {
        if answer(lab, &call, listener, &mut text).is_err() {
            return Err(Ending::NoMemory);
        }
        output.write_all(text.as_bytes())?;
        let Some(next) = lines.next_call(input, output)? else {
            return Ok(());
        };
        call = next;
    }
}

/// Runs a call, and replaces `text` by the line of its reply.
fn answer<L: Listener>(
    lab: &mut Lab,
    call: &Call,
    listener: &mut L,
    text: &mut String,
) -> Result<(), AllocError>
    ensures { OnOk result (AnswersCall lab.old call.now lab.new (string_bytes text.new)) }
{
    listener.before(lab, call)?;
    let reply = lab.apply(call);
    listener.after(lab, call, &reply)?;
    text.clear();
    print_reply(&reply, text)?;
    text.push('\n')
}
