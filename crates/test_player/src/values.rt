//! Calls without a store: buffers, headers, names, rates, lines and errors.

use crate::args::Args;
use crate::calls::Value;
use crate::found::{Found, bytes, done};
use crate::words;
use blob_base::{
    BlobVersion, Crc32, Error, Header, HeaderError, IoBufs, IoBufsMut, Layout, Probability,
    SectorSize, resolve, validate_partition_name,
};
use blob_faulty::write_config_from_cell;
use blob_header::header_laws::decodes_what_encodes;
use blob_lab_store::ScriptedRng;
use blob_memory::Origin;
use blob_script::Reply;
use blob_script::script::{RefusedLine, print_reply, read_line};
use rand_core::Rng;
use std::alloc::{AllocError, Global};
use std::mem;

fn said((size, version, offset): (u64, BlobVersion, u64)) -> Found {
    Found::Valid(size, version, offset)
}

// Resolves a whole blob. All layouts are accepted.
fn resolved(args: &Args<'_>) -> Result<Found, Error> {
    let versions = args.versions().ok_or(Error::Closed)?;
    let len = args.bytes.len() as u64;
    let layouts = Layout::all();
    let found = resolve(args.alloc, &args.bytes, len, &layouts, &versions, "p", b"b")?;
    Ok(found.map_or(Found::Creates, said))
}

type Parsed = Result<(u64, BlobVersion, u64), HeaderError>;

// Parses a blob's header, with these accepted layouts and versions.
fn parse(args: &Args<'_>) -> Result<Parsed, Error> {
    let versions = args.versions().ok_or(Error::Closed)?;
    if args.bytes.len() < 8 {
        return Err(Error::Closed);
    }
    let [oldest, newest] = args.layouts;
    let len = args.bytes.len() as u64;
    Ok(Header::parse(&args.bytes, len, &(oldest..=newest), &versions))
}

fn parsed(args: &Args<'_>) -> Result<Found, Error> {
    match parse(args)? {
        Ok(found) => Ok(said(found)),
        Err(e) => Err(e.into_error(args.alloc, "p", b"b")),
    }
}

// Returns whether an interrupted creation may have left a header that is rejected.
fn may_be_torn(args: &Args<'_>) -> Result<Found, Error> {
    match parse(args)? {
        Ok(_) => Err(Error::Closed),
        Err(e) => Ok(Found::Is(e.may_be_torn_creation())),
    }
}

// Returns the header region of a new blob.
fn created(args: &Args<'_>) -> Result<Found, Error> {
    let [first, last] = args.versions;
    if first > last {
        return Err(Error::Closed);
    }
    let only = args.layouts[1];
    let (region, version) = Header::create(args.alloc, &(only..=only), &(first..=last))?;
    if version != last {
        return Err(Error::Closed);
    }
    Ok(bytes(region))
}

fn layout_of(args: &Args<'_>) -> Result<Found, Error> {
    let [a, b, c, d] = args.bytes.as_slice() else {
        return Err(Error::Closed);
    };
    Ok(Layout::from_magic(&[*a, *b, *c, *d]).map_or(Found::Nothing, Found::Layout))
}

// Draws with a rate from one word. Returns the result and how many words it took.
fn drawn(args: &Args<'_>) -> Result<Found, Error> {
    let [n, d, word, _] = args.numbers;
    let Some(rate) = Probability::new(n, d) else {
        return Ok(Found::Nothing);
    };
    let mut words = Vec::new(args.alloc);
    words.push(word)?;
    let mut rng = words::generator(words)?;
    let is_hit = rate.sample(&mut rng);
    Ok(Found::Drawn(is_hit, words::taken(args.alloc, rng, 1, 1)?))
}

// Returns the write configuration of a 16-bit cell.
fn cell(number: u64) -> Result<Found, Error> {
    match u16::try_from(number) {
        Ok(number) => Ok(Found::Writes(write_config_from_cell(number))),
        Err(_) => Err(Error::Closed),
    }
}

// A copy has one piece.
fn copied(bufs: &IoBufs) -> Result<Found, Error> {
    bufs.copied()?.coalesce().map(bytes)
}

fn new_origin(args: &Args<'_>) -> Result<Found, Error> {
    let [number, offset, _, _] = args.numbers;
    let origin = Origin::new(args.alloc, &args.partition, &args.name, number, offset)?;
    Ok(Found::Origin(origin))
}

// Prints the reply of a read.
fn printed(alloc: Global, bytes: Vec<u8>) -> Result<Found, Error> {
    let mut line = String::new(alloc);
    print_reply(&Reply::Bytes(bytes), &mut line)?;
    Ok(Found::Text(line))
}

fn read(alloc: Global, line: &str) -> Result<Found, Error> {
    match read_line(alloc, line.as_bytes()) {
        Err(RefusedLine::NoMemory) => Err(Error::Memory(AllocError)),
        read => Ok(Found::Line(read)),
    }
}

fn counted(bufs: &IoBufs) -> Found {
    Found::Pieces(bufs.pieces().len(), bufs.remaining(), bufs.is_empty())
}

// Returns whether a single piece keeps its capacity.
fn moved(mut bytes: Vec<u8>) -> Result<Found, Error> {
    bytes.reserve(100)?;
    let room = bytes.capacity();
    let back = IoBufs::from_vec(bytes)?.coalesce()?;
    Ok(Found::Is(back.capacity() == room))
}

// Decodes a header of eight bytes.
fn header(args: &Args<'_>) -> Result<Header, Error> {
    let [a, b, c, d, e, f, g, h] = args.bytes.as_slice() else {
        return Err(Error::Closed);
    };
    Ok(Header::decode(&[*a, *b, *c, *d, *e, *f, *g, *h]))
}

fn validated(args: &Args<'_>) -> Result<Found, Error> {
    match header(args)?.validate() {
        Ok(layout) => Ok(Found::Layout(layout)),
        Err(e) => Err(e.into_error(args.alloc, "p", b"b")),
    }
}

fn encoded(args: &Args<'_>) -> Result<Found, Error> {
    let again = decodes_what_encodes(header(args)?).encode();
    Ok(bytes(Vec::from_slice(args.alloc, &again)?))
}

// Draws from a generator with words and a seed: 64 and 32 bits, twice, and eight bytes.
fn seeded(args: &mut Args<'_>) -> Result<Found, Error> {
    let words = mem::replace(&mut args.words, Vec::new(args.alloc));
    let mut rng = ScriptedRng::seeded(words, args.numbers[0]);
    let (a, b) = (rng.next_u64(), rng.next_u32());
    let (c, d) = (rng.next_u64(), rng.next_u32());
    let mut filled = [0; 8];
    rng.fill_bytes(&mut filled);
    let e = u64::from_be_bytes(filled);
    let told = format!(in args.alloc; "{a:x} {b:x} {c:x} {d:x} {e:016x}")?;
    Ok(Found::Text(told))
}

/// Runs a call without a store.
pub fn call(value: Value, args: &mut Args<'_>) -> Result<Found, Error> {
    match value {
        Value::Resolve => resolved(args),
        Value::Parse => parsed(args),
        Value::MaybeTorn => may_be_torn(args),
        Value::Interrupted => Ok(Found::Is(args.layouts[1].interrupted_creation(&args.bytes))),
        Value::Create => created(args),
        Value::Checksum => Ok(Found::Sum(Crc32::checksum(&args.bytes).to_be_bytes())),
        Value::Magic => layout_of(args),
        Value::Partition => validate_partition_name(args.alloc, &args.partition).map(done),
        Value::Draw => drawn(args),
        Value::Cell => cell(args.numbers[0]),
        _ => call_of_buffers(value, args),
    }
}

fn call_of_buffers(value: Value, args: &mut Args<'_>) -> Result<Found, Error> {
    match value {
        Value::FromVec => IoBufs::from_vec(args.take_bytes()).map(|_| done(())),
        Value::Buffer => IoBufsMut::with_capacity(args.alloc, args.handle()).map(|_| done(())),
        Value::Coalesce => args.take_bufs().coalesce().map(bytes),
        Value::Copied => copied(&args.bufs),
        Value::NewOrigin => new_origin(args),
        Value::ReadLine => read(args.alloc, args.text),
        Value::Print => printed(args.alloc, args.take_bytes()),
        Value::ReadBytes => Ok(Found::Line(read_line(args.alloc, &args.bytes))),
        Value::Told => Ok(Found::Words(args.error.take().ok_or(Error::Closed)?)),
        Value::Refused => Err(args.error.take().unwrap_or(Error::Closed)),
        _ => call_more(value, args),
    }
}

fn call_more(value: Value, args: &mut Args<'_>) -> Result<Found, Error> {
    let [number, ..] = args.numbers;
    match value {
        Value::Counted => Ok(counted(&args.bufs)),
        Value::CountedCopy => args.bufs.copied().map(|copy| counted(&copy)),
        Value::Moved => moved(args.take_bytes()),
        Value::Sector => Ok(SectorSize::new(number).map_or(
            Found::Nothing,
            |size| Found::Told(Reply::Size(size.get())),
        )),
        Value::Validate => validated(args),
        Value::Encode => encoded(args),
        Value::Missing => Ok(Found::Is(Header::missing(number))),
        Value::ResolveLen => Ok(Found::Told(Reply::Size(Header::resolve_len(number) as u64))),
        Value::Seeded => seeded(args),
        _ => Err(Error::Closed),
    }
}
