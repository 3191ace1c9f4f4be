//! The order in which a pool sends what waits in it.

ghost use Rattle.std.specs.Prelude.{◌≡◌, IfOk};
ghost use Rattle.pools.specs.Lines.{line};
ghost use Rattle.order.specs.Sending.{behind, sending};

use pools::pool::Pool;
use pools::request::Request;
use std::alloc::{AllocError, Global};

/// The requests of application 0, which leave the pool one after the other as it chooses them; the
/// head comes to stand behind each.
pub(crate) fn sending_order<P: Pool>(
    heap: Global,
    pool: &mut P,
    head: u64,
) -> Result<Vec<Request>, AllocError>
    ensures { IfOk result (λ sent. sent.items ≡ sending P.Pool.choice (line (P.Pool.lists pool.old) 0) head) }
{
    let mut sent = Vec::new(heap);
    let mut at = head;
    while let Some(request) = pool.take(0, at) {
        sent.push(request)?;
        at = behind(request);
    }
    Ok(sent)
}

/// Where the head stands once the request is sent, as far as 64 bits go.
// The scheduler moves its own head in the same way, but has no function of it that could be called.
fn behind(request: Request) -> u64
    ensures { result ≡ behind request }
{
    request.first.saturating_add(u64::from(request.size))
}
