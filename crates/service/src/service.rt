// One run of the program: its route table and its counts.
ghost use Rattle.std.specs.Prelude.{◌≡◌, [], IfOk, Some, None, OnOk};
ghost use Rattle.calls.specs.Calls.{asked};
ghost use Rattle.answers.specs.Answers.{error, end_onto};
ghost use Rattle.arguments.specs.declared.fault.LineFault.TheVariants.{TooLong};
ghost use Rattle.service.specs.Replies.{reply, rows_after, line_reply, line_rows, route_reply, rows_with};
ghost use Rattle.service.specs.Runs.{Tells, outcome, counted, kept, started, kept_after, written_after, kept_after_long, written_after_long};

use crate::reply::{ROOM, read_reply, reason_reply, way_reply, write_reply};
use crate::tell::{Outcome, tell};
use answers::answer::Answer;
use answers::counts::Counts;
use answers::line::write_end;
use arguments::fault::{CallFault, LineFault};
use calls::call::Call;
use calls::reading::read_call;
use routing::row::RouteRow;
use std::alloc::{AllocError, Global};

// The greatest number of route rows.
const MOST_ROUTES: usize = 1024;

#[derive(Drop)]
pub struct Service {
    heap: Global,
    routes: Vec<RouteRow>,
    counts: Counts,
}

// Adds a route row where there is room.
fn add_route(
    number: u64,
    rows: &mut Vec<RouteRow>,
    row: RouteRow,
    out: &mut Vec<u8>,
) -> Result<Outcome, AllocError>
    ensures told { IfOk result (Tells out.old.items number (route_reply rows.old.items) out.new.items) }
    ensures rows { OnOk result (rows.new.items ≡ rows_with row rows.old.items) }
{
    if rows.len() >= MOST_ROUTES {
        return tell(number, Answer::Error(LineFault::TableFull), out);
    }
    rows.push(row)?;
    Ok(Outcome::Silent)
}

// Does what a call asks for, and tells the reply.
fn perform(
    number: u64,
    rows: &mut Vec<RouteRow>,
    call: &Call,
    out: &mut Vec<u8>,
) -> Result<Outcome, AllocError>
    ensures told { IfOk result (Tells out.old.items number (reply rows.old.items (asked call.now)) out.new.items) }
    ensures rows { OnOk result (rows.new.items ≡ rows_after rows.old.items (asked call.now)) }
{
    match call {
        Call::ReadRecord(bytes) => tell(number, read_reply(bytes.as_slice()), out),
        Call::WriteFields(fields) => {
            let mut room = [0; ROOM];
            tell(number, write_reply(fields, &mut room), out)
        }
        Call::AddRoute(row) => add_route(number, rows, *row, out),
        Call::ForgetRoutes => {
            rows.clear();
            Ok(Outcome::Silent)
        }
        Call::AskWay(target, dataflow) => tell(
            number,
            way_reply(rows.as_slice(), target.as_slice(), dataflow.as_slice()),
            out,
        ),
        Call::AskReason(record, sheet) => tell(
            number,
            reason_reply(record.as_slice(), sheet.as_slice()),
            out,
        ),
    }
}

// One line more, counted by how it came out.
fn count(counts: Counts, how: Outcome) -> Counts
    ensures { result ≡ counted how counts }
{
    let lines = counts.lines.saturating_add(1);
    match how {
        Outcome::Silent | Outcome::Answered => Counts { lines, ..counts },
        Outcome::Refused => Counts {
            lines,
            refused: counts.refused.saturating_add(1),
            ..counts
        },
        Outcome::Mistaken => Counts {
            lines,
            errors: counts.errors.saturating_add(1),
            ..counts
        },
    }
}

impl Service {
    // A run with no routes, nothing counted.
    pub fn new(heap: Global) -> Service
        ensures { kept result ≡ started }
    {
        let counts = Counts {
            lines: 0,
            calls: 0,
            refused: 0,
            errors: 0,
        };
        Service {
            heap,
            routes: Vec::new(heap),
            counts,
        }
    }

    fn tell_line(&mut self, line: &[u8], out: &mut Vec<u8>) -> Result<Outcome, AllocError>
        ensures written { OnOk result (out.new.items ≡ written_after (kept self.old) line.now out.old.items) }
        ensures how { IfOk result (λ how. how ≡ outcome (line_reply self.old.routes.items line.now)) }
        ensures routes { OnOk result (self.new.routes.items ≡ line_rows self.old.routes.items line.now) }
        ensures counts { self.new.counts ≡ self.old.counts }
    {
        let number = self.counts.lines.saturating_add(1);
        match read_call(self.heap, line) {
            Ok(Some(call)) => perform(number, &mut self.routes, &call, out),
            Ok(None) => Ok(Outcome::Silent),
            Err(CallFault::Line(fault)) => tell(number, Answer::Error(fault), out),
            Err(CallFault::Memory) => Err(AllocError),
        }
    }

    // Serves one line: adds its reply to `out`, if it has one.
    pub fn serve(&mut self, line: &[u8], out: &mut Vec<u8>) -> Result<(), AllocError>
        ensures written { OnOk result (out.new.items ≡ written_after (kept self.old) line.now out.old.items) }
        ensures kept { OnOk result (kept self.new ≡ kept_after (kept self.old) line.now) }
    {
        let how = self.tell_line(line, out)?;
        self.counts = count(self.counts, how);
        Ok(())
    }

    // Serves a line that is too long to be a call.
    pub fn serve_long(&mut self, out: &mut Vec<u8>) -> Result<(), AllocError>
        ensures written { OnOk result (out.new.items ≡ written_after_long (kept self.old) out.old.items) }
        ensures kept { OnOk result (kept self.new ≡ kept_after_long (kept self.old)) }
    {
        let number = self.counts.lines.saturating_add(1);
        let how = tell(number, Answer::Error(LineFault::TooLong), out)?;
        self.counts = count(self.counts, how);
        Ok(())
    }

    // Adds the last line of the run.
    pub fn finish(&self, out: &mut Vec<u8>) -> Result<(), AllocError>
        ensures { OnOk result (out.new.items ≡ end_onto out.old.items (kept self.now).counts) }
    {
        write_end(self.counts, out)
    }
}
