//! Many files on one input: what a comparison with another program asks for.

ghost use Rattle.std.specs.Prelude.{◌<◌, length, IfSome};

use crate::report::{show, show_fault};
use records::record::FixedRecord;
use std::alloc::{AllocError, Global};
use std::io;
use std::io::Write;
use trace::parts::Body;
use trace::tables::{ApplicationRecord, EventRecord, RequestRecord, Settings, Tables};
use trace::trace::Trace;
use trace::write_trace;

/// Files, each behind its length in 4 bytes. One that is accepted is written back from its tables.
pub fn report_all<W: Write>(heap: Global, out: &mut W, bytes: &[u8]) -> io::Result<()> {
    let mut rest = bytes;
    while let Some((file, behind)) = next_file(rest) {
        match Trace::read(file) {
            Ok(trace) => {
                show(out, &trace)?;
                write_back(
                    out,
                    &Loaded::from(heap, &trace)?,
                    file,
                    vec![in heap; 0u8; file.len()]?,
                )?;
            }
            Err(fault) => show_fault(out, fault)?,
        }
        rest = behind;
    }
    Ok(())
}

/// The next file, and what is behind it, if that much is left.
fn next_file(rest: &[u8]) -> Option<(&[u8], &[u8])>
    ensures { IfSome result (λ p. length p.1.now < length rest.now) }
{
    let (size, rest) = rest.split_first_chunk()?;
    rest.split_at_checked(u32::from_le_bytes(*size) as usize)
}

/// Writes a file from its tables, and shows whether that gives the same bytes.
fn write_back<W: Write>(
    out: &mut W,
    tables: &Loaded,
    file: &[u8],
    mut buffer: Vec<u8>,
) -> io::Result<()> {
    match write_trace(&tables.borrowed(), buffer.as_mut_slice()) {
        Ok(size) => {
            let same = buffer.as_slice() == file;
            writeln!(out, "written {size} {same}")
        }
        Err(fault) => show_fault(out, fault),
    }
}

/// The tables of a file, each record read from its bytes.
#[derive(Drop)]
struct Loaded {
    settings: Settings,
    applications: Vec<ApplicationRecord>,
    requests: Vec<RequestRecord>,
    events: Vec<EventRecord>,
}

impl Loaded {
    fn from(heap: Global, trace: &Trace) -> Result<Loaded, AllocError> {
        Ok(Loaded {
            settings: trace.settings(),
            applications: load(heap, trace.applications())?,
            requests: load(heap, trace.requests())?,
            events: load(heap, trace.events())?,
        })
    }

    fn borrowed(&self) -> Tables<'_> {
        Tables {
            settings: self.settings,
            applications: self.applications.as_slice(),
            requests: self.requests.as_slice(),
            events: self.events.as_slice(),
        }
    }
}

fn load<const N: usize, R: FixedRecord<N>>(heap: Global, body: Body) -> Result<Vec<R>, AllocError> {
    // A loop and not `map` and `collect`: a function passed to `map` whose result is of a type parameter gets no proof.
    let mut table = Vec::new(heap);
    for bytes in body.pieces() {
        table.push(R::of(bytes))?;
    }
    Ok(table)
}
