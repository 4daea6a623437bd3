// Threads share a table, and each takes a seat along: this file is refused where one of them may not.
use crate::turn_seat::TurnSeat;
use crate::turned::Turned;
use crate::turns::Turns;

fn is_sent<T: Send>() {}

fn is_shared<T: Sync>() {}

/// A table may be sent and shared and a seat may be sent, for each type of value.
pub(crate) fn cross_threads<V: Turned>() {
    is_sent::<Turns<V>>();
    is_shared::<Turns<V>>();
    is_sent::<TurnSeat>();
}
