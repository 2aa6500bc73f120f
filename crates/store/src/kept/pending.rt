// The two passes by which the events of a device leave the pending ones.
ghost use Rattle.std.specs.Prelude.{◌≡◌, ◌+◌, ◌≤◌, ◌++◌, map, length, vec_len, vec_capacity, filter};
ghost use Rattle.std.specs.VecDeque.{deque_len, deque_capacity};
ghost use Rattle.ei.specs.Events.{at_time};
ghost use Rattle.store.specs.Moves.{of, not_of};

use super::asks::is_of;
use ei::event::EiEvent;
use std::collections::VecDeque;

// Queues a device's events in their order, each at this time.
pub(super) fn queue_at(events: &[EiEvent], device: u32, time: u64, queued: &mut VecDeque<EiEvent>)
    requires { deque_len queued.old + length events.now ≤ deque_capacity queued.old }
    ensures items { queued.new.items ≡ queued.old.items ++ map (at_time time) (filter (of device) events.now) }
    ensures len { deque_len queued.new ≡ deque_len queued.old + length (filter (of device) events.now) }
    ensures capacity { deque_capacity queued.new ≡ deque_capacity queued.old }
{
    for event in events.iter().filter(|event| is_of(event, device)) {
        queued.push_back_reserved(event.at_time(time));
    }
}

// Takes a device's events out; the others stay in their order.
pub(super) fn take_out(events: &mut Vec<EiEvent>, device: u32)
    ensures items { events.new.items ≡ filter (not_of device) events.old.items }
    ensures len { vec_len events.new + length (filter (of device) events.old.items) ≡ vec_len events.old }
    ensures capacity { vec_capacity events.new ≡ vec_capacity events.old }
{
    events.retain(|event| !is_of(event, device));
}
