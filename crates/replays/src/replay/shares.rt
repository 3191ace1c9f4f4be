//! The sectors that are sent for each application.

ghost use Rattle.std.specs.Prelude.{◌≡◌, ℕ, ◌+◌, ◌^◌, ◌<◌, ◌≤◌, length, slice_index};
ghost use Rattle.fields.specs.Buffers.{put};
ghost use Rattle.replays.specs.Asked.{members};
ghost use Rattle.replays.specs.Credits.{credited, sums_of};
ghost use Rattle.replays.specs.Listings.{share_lines};

use crate::replay::workload::Workload;
use driver::command::{Answer, Outcome};
use listing::lines::put_share;
use records::record::FixedRecord;
use trace::tables::ApplicationRecord;

/// Adds what was sent to its application's sectors.
pub(crate) fn credit(sent: &mut [u64; 16], outcome: Outcome)
    requires { (k : ℕ) → k < 16 → slice_index sent.old k + 2 ^ 16 < 2 ^ 64 }
    ensures { sent.new ≡ credited outcome sent.old }
{
    let Ok(Answer::Sent(request)) = outcome else {
        return;
    };
    // By its index: of a write through `get_mut` a proof knows only the length.
    let application = usize::from(request.application);
    if application < sent.len() {
        sent[application] += u64::from(request.size);
    }
}

/// Puts a line for each application, with the sectors that were sent for it; answers where they end.
/// Application 0 has no record, and weight 1.
pub(crate) fn put_shares(workload: &Workload, sent: &[u64; 16], out: &mut [u8], at: usize) -> usize
    requires { at + 1024 ≤ length out.old }
    ensures end { result ≡ at + length (share_lines (sums_of sent.now) 0 (members workload.now.applications)) }
    ensures most { result ≤ at + 1024 }
    ensures after { out.new ≡ put at (share_lines (sums_of sent.now) 0 (members workload.now.applications)) out.old }
{
    let mut end = put_share(out, at, 0, 1, sent[0]);
    for (index, bytes) in workload.applications().iter().enumerate() {
        // By its number: application 0 has no record, so records and sums do not stand side by side.
        let number = index + 1;
        let ApplicationRecord { weight, .. } = ApplicationRecord::of(bytes);
        end = put_share(out, end, number, weight, sent[number]);
    }
    end
}
