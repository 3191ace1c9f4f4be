//! The events of a workload, played on a scheduler and listed.

ghost use Rattle.std.specs.Prelude.{◌≡◌, ℕ, ◌*◌, ◌<◌, ◌≤◌, length, slice_index};
ghost use Rattle.listing.specs.Near.{StaysNear};
ghost use Rattle.driver.specs.Runs.{history};
ghost use Rattle.fields.specs.Buffers.{put};
ghost use Rattle.histories.specs.History.{sent_for};
ghost use Rattle.replays.specs.Asked.{commands};
ghost use Rattle.replays.specs.Listings.{event_lines};

use crate::replay::shares::credit;
use crate::replay::workload::Workload;
use driver::session::Session;
use listing::lines::{event_line_is_short, put_event};
use scheduler::calls::Calls;

/// Where the lines of the events end, and the sectors that were sent for each application.
pub(crate) struct Played {
    pub(crate) end: usize,
    pub(crate) sent: [u64; 16],
}

/// Makes a call for each event of the workload and puts its line, from the buffer's beginning on. These are
/// at most 960 lines of 64 bytes.
pub(crate) fn play<S: Calls>(
    session: &mut Session<S>,
    workload: &Workload,
    out: &mut [u8],
) -> Played
    requires near { StaysNear S.Calls.choice S.Calls.next session.old }
    requires room { 61440 ≤ length out.old }
    ensures end { result.end ≡ length (event_lines S.Calls.choice S.Calls.next (commands workload.now) session.old) }
    ensures most { result.end ≤ 61440 }
    ensures after { out.new ≡ put 0 (event_lines S.Calls.choice S.Calls.next (commands workload.now) session.old) out.old }
    ensures sums { (k : ℕ) → k < 16 → slice_index result.sent k ≡ sent_for k (history S.Calls.choice S.Calls.next (commands workload.now) session.old) }
{
    let mut sent = [0; 16];
    let mut end = 0;
    for event in workload.events() {
        let command = workload.command(event);
        let outcome = session.step(command);
        event_line_is_short(command, outcome);
        end = put_event(out, end, command, outcome);
        credit(&mut sent, outcome);
    }
    Played { end, sent }
}
