//! The plain list of outboxes, and back.
ghost use Rattle.std.specs.Prelude.{◌≡◌, IfOk};

use crate::queue::Queue;
use jsp_model::Outbox;
use jsp_types::{Items, NoMemory};
use std::alloc::Global;

/// The queues of these outboxes. Their answers aren't moved.
pub(crate) fn queues_of(outboxes: Items<Outbox>) -> Result<Vec<Queue>, NoMemory>
    ensures { IfOk result (λ v. v.items ≡ outboxes) }
{
    let outboxes = outboxes.into_vec();
    let mut queues = Vec::new(*outboxes.allocator());
    let mut rest = outboxes.into_iter();
    'outboxes: while let Some(outbox) = rest.next() {
        queues.push(Queue::of(outbox))?;
    }
    Ok(queues)
}

/// A plain copy of the queues.
pub(crate) fn outboxes_of(alloc: Global, queues: &[Queue]) -> Result<Items<Outbox>, NoMemory>
    ensures { IfOk result (λ c. c ≡ queues.now) }
{
    let mut outboxes = Items::new(alloc);
    for queue in queues {
        outboxes.push(queue.to_outbox(alloc)?)?;
    }
    Ok(outboxes)
}
