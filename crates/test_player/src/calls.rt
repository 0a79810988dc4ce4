//! The words of calls, with their arguments.

use crate::args::{Args, takes_all};
use blob_base::Error;
use std::alloc::Global;

/// A call, by what it works on.
#[derive(Clone, Copy)]
pub enum Ask {
    Value(Value),
    Kept(Kept),
    Own(Own),
    Debt(Debt),
}

/// Calls without a store.
#[derive(Clone, Copy)]
pub enum Value {
    Resolve,
    Parse,
    MaybeTorn,
    Interrupted,
    Create,
    Checksum,
    Magic,
    Partition,
    Draw,
    Cell,
    FromVec,
    Buffer,
    Coalesce,
    Copied,
    NewOrigin,
    ReadLine,
    Print,
    Told,
    Refused,
    Counted,
    CountedCopy,
    Moved,
    Sector,
    Validate,
    Encode,
    Missing,
    ResolveLen,
    ReadBytes,
    Seeded,
}

/// Calls on the list of pieces, and on durable bytes.
#[derive(Clone, Copy)]
pub enum Kept {
    Push,
    Pieces,
    Raw,
    Logical,
}

/// Calls on a store, a wrapper or exclusive opens, or through their handles.
#[derive(Clone, Copy)]
pub enum Own {
    Open,
    OpenVersioned,
    OpenExclusive,
    OpenAdmitted,
    OpenVersionedAdmitted,
    Fresh,
    Remove,
    RemovePartition,
    Scan,
    Finish,
    Same,
    Read,
    ReadInto,
    ReadSlice,
    Write,
    WriteSynced,
    WriteFrom,
    WriteFromSynced,
    Resize,
    Sync,
    StartSync,
    Reserve,
    Current,
    Live,
    All,
    SetRaw,
    Audit,
    Rebuild,
    Fork,
    Swap,
    Origin,
    Retain,
    RetainResize,
    RetainOf,
    RetainResizeOf,
    ReserveCrash,
    Config,
    Size,
    RemoveRetired,
    RemovePartitionRetired,
    Admit,
    Crash,
    Holes,
    Rewrap,
    Wrap,
    Unwrap,
    Close,
    Replace,
    ReplacePartition,
    WriteAndSync,
    ResizeAndStart,
    WriteAndRemove,
    WriteWithin,
    PlainWithin,
}

/// Calls on the registry of durability debt.
#[derive(Clone, Copy)]
pub enum Debt {
    Begin,
    Admit,
    Release,
    Settle,
    IsSettled,
    Owes,
    Clear,
    Fail,
    Close,
    Keeps,
    Forget,
    ForgetPartition,
}

type Row = (&'static str, &'static str, Ask);

// A word, the letters of its arguments, and the call.
static CALLS: [Row; 101] = [
    ("resolve", "bvv", Ask::Value(Value::Resolve)),
    ("parse", "bllvv", Ask::Value(Value::Parse)),
    ("maybetorn", "bllvv", Ask::Value(Value::MaybeTorn)),
    ("interrupted", "lb", Ask::Value(Value::Interrupted)),
    ("create", "lvv", Ask::Value(Value::Create)),
    ("checksum", "b", Ask::Value(Value::Checksum)),
    ("layout", "b", Ask::Value(Value::Magic)),
    ("partition", "p", Ask::Value(Value::Partition)),
    ("draw", "nnn", Ask::Value(Value::Draw)),
    ("cell", "n", Ask::Value(Value::Cell)),
    ("fromvec", "b", Ask::Value(Value::FromVec)),
    ("buffer", "n", Ask::Value(Value::Buffer)),
    ("coalesce", "W", Ask::Value(Value::Coalesce)),
    ("copied", "W", Ask::Value(Value::Copied)),
    ("neworigin", "pann", Ask::Value(Value::NewOrigin)),
    ("readline", "T", Ask::Value(Value::ReadLine)),
    ("print", "b", Ask::Value(Value::Print)),
    ("told", "E", Ask::Value(Value::Told)),
    ("refused", "E", Ask::Value(Value::Refused)),
    ("counted", "W", Ask::Value(Value::Counted)),
    ("countedcopy", "W", Ask::Value(Value::CountedCopy)),
    ("moved", "b", Ask::Value(Value::Moved)),
    ("sector", "n", Ask::Value(Value::Sector)),
    ("validate", "b", Ask::Value(Value::Validate)),
    ("encode", "b", Ask::Value(Value::Encode)),
    ("missing", "n", Ask::Value(Value::Missing)),
    ("resolvelen", "n", Ask::Value(Value::ResolveLen)),
    ("readbytes", "b", Ask::Value(Value::ReadBytes)),
    ("seeded", "nG", Ask::Value(Value::Seeded)),
    ("push", "b", Ask::Kept(Kept::Push)),
    ("kept", "", Ask::Kept(Kept::Pieces)),
    ("raw", "pa", Ask::Kept(Kept::Raw)),
    ("logical", "pa", Ask::Kept(Kept::Logical)),
    ("loose", "pa", Ask::Own(Own::Open)),
    ("loose", "pavv", Ask::Own(Own::OpenVersioned)),
    ("open", "pa", Ask::Own(Own::OpenExclusive)),
    ("open", "pavv", Ask::Own(Own::OpenExclusive)),
    ("admitted", "pa", Ask::Own(Own::OpenAdmitted)),
    ("admitted", "pavv", Ask::Own(Own::OpenVersionedAdmitted)),
    ("fresh", "pa", Ask::Own(Own::Fresh)),
    ("remove", "p", Ask::Own(Own::RemovePartition)),
    ("remove", "pa", Ask::Own(Own::Remove)),
    ("scan", "p", Ask::Own(Own::Scan)),
    ("finish", "n", Ask::Own(Own::Finish)),
    ("same", "nn", Ask::Own(Own::Same)),
    ("read", "nnn", Ask::Own(Own::Read)),
    ("readinto", "nnu", Ask::Own(Own::ReadInto)),
    ("readslice", "nnb", Ask::Own(Own::ReadSlice)),
    ("write", "nnW", Ask::Own(Own::Write)),
    ("writes", "nnW", Ask::Own(Own::WriteSynced)),
    ("writefrom", "nnb", Ask::Own(Own::WriteFrom)),
    ("writesfrom", "nnb", Ask::Own(Own::WriteFromSynced)),
    ("resize", "nn", Ask::Own(Own::Resize)),
    ("sync", "n", Ask::Own(Own::Sync)),
    ("startsync", "n", Ask::Own(Own::StartSync)),
    ("reserve", "nn", Ask::Own(Own::Reserve)),
    ("current", "n", Ask::Own(Own::Current)),
    ("live", "nn", Ask::Own(Own::Live)),
    ("all", "n", Ask::Own(Own::All)),
    ("setraw", "pab", Ask::Own(Own::SetRaw)),
    ("audit", "", Ask::Own(Own::Audit)),
    ("rebuild", "", Ask::Own(Own::Rebuild)),
    ("fork", "", Ask::Own(Own::Fork)),
    ("swap", "", Ask::Own(Own::Swap)),
    ("origin", "n", Ask::Own(Own::Origin)),
    ("retain", "nnwc", Ask::Own(Own::Retain)),
    ("retainresize", "nn", Ask::Own(Own::RetainResize)),
    ("retainof", "nnwc", Ask::Own(Own::RetainOf)),
    ("retainresizeof", "nn", Ask::Own(Own::RetainResizeOf)),
    ("reservecrash", "nn", Ask::Own(Own::ReserveCrash)),
    ("config", "S", Ask::Own(Own::Config)),
    ("size", "n", Ask::Own(Own::Size)),
    ("removeretired", "p", Ask::Own(Own::RemovePartitionRetired)),
    ("removeretired", "pa", Ask::Own(Own::RemoveRetired)),
    ("admit", "pa", Ask::Own(Own::Admit)),
    ("crash", "", Ask::Own(Own::Crash)),
    ("holes", "n", Ask::Own(Own::Holes)),
    ("rewrap", "", Ask::Own(Own::Rewrap)),
    ("wrap", "G", Ask::Own(Own::Wrap)),
    ("unwrap", "", Ask::Own(Own::Unwrap)),
    ("close", "n", Ask::Own(Own::Close)),
    ("replace", "paE", Ask::Own(Own::Replace)),
    ("replaceall", "pE", Ask::Own(Own::ReplacePartition)),
    ("writeandsync", "nnw", Ask::Own(Own::WriteAndSync)),
    ("resizeandstart", "nn", Ask::Own(Own::ResizeAndStart)),
    ("writeandremove", "pannw", Ask::Own(Own::WriteAndRemove)),
    ("writewithin", "nnnw", Ask::Own(Own::WriteWithin)),
    ("plainwithin", "nnnw", Ask::Own(Own::PlainWithin)),
    ("registry", "", Ask::Debt(Debt::Begin)),
    ("registry", "nn", Ask::Debt(Debt::Begin)),
    ("enter", "pan", Ask::Debt(Debt::Admit)),
    ("release", "n", Ask::Debt(Debt::Release)),
    ("settle", "pannE", Ask::Debt(Debt::Settle)),
    ("settled", "n", Ask::Debt(Debt::IsSettled)),
    ("owes", "pan", Ask::Debt(Debt::Owes)),
    ("clear", "panE", Ask::Debt(Debt::Clear)),
    ("fail", "nE", Ask::Debt(Debt::Fail)),
    ("leave", "n", Ask::Debt(Debt::Close)),
    ("keeps", "pa", Ask::Debt(Debt::Keeps)),
    ("forget", "p", Ask::Debt(Debt::ForgetPartition)),
    ("forget", "pa", Ask::Debt(Debt::Forget)),
];

// Returns whether letters match this number of tokens.
fn fits(letters: &str, count: usize) -> bool {
    match letters.as_bytes() {
        [fixed @ .., last] if takes_all(*last) => fixed.len() <= count,
        all => all.len() == count,
    }
}

fn look_up(word: &str, count: usize) -> Option<(&'static str, Ask)> {
    for (text, letters, ask) in CALLS.iter() {
        if *text == word && fits(letters, count) {
            return Some((*letters, *ask));
        }
    }
    None
}

/// Parses a line as a call and its arguments. Returns `Closed`, an error that no store returns, if it isn't a call.
pub fn read<'a>(alloc: Global, line: &'a str) -> Result<(Ask, Args<'a>), Error> {
    let (word, text) = line.split_once(' ').unwrap_or((line, ""));
    let tokens: Vec<&str> = line.split(' ').collect(alloc)?;
    let (letters, ask) = look_up(word, tokens.len().wrapping_sub(1)).ok_or(Error::Closed)?;
    let mut args = Args::new(alloc, text);
    take_each(&mut args, letters, &tokens)?;
    Ok((ask, args))
}

// Takes the arguments of these letters. The first token is the call's word.
fn take_each(args: &mut Args<'_>, letters: &str, tokens: &[&str]) -> Result<(), Error> {
    let mut rest = tokens;
    for letter in letters.bytes() {
        if let [_, later @ ..] = rest {
            rest = later;
        }
        args.take(letter, rest)?;
    }
    Ok(())
}
