//! Counting the messages that wait.
ghost use Rattle.std.specs.Prelude.{◌≡◌};
ghost use Rattle.machine.specs.Calls.{Names, takeable, counts};
ghost use Rattle.tables.specs.View.{view, Sound};

use crate::act::is_ahead;
use crate::message::{receiver, sender};
use crate::permit::is_faulty;
use machine::figures::Figures;
use machine::message::Message;
use tables::lent::Tables;

// Whether a message can be taken between correct stations.
fn is_takeable<V: Copy>(tables: &Tables<V>, figures: &Figures<V>, message: &Message<V>) -> bool
    requires sound { Sound figures.now tables.now }
    requires named { Names figures.now.stations message.now }
    ensures { result ≡ takeable (view figures.now tables.now) message.now }
{
    !is_faulty(figures, sender(message))
        && !is_faulty(figures, receiver(message))
        && !is_ahead(tables, figures, message)
}

// How many messages wait, and how many of them can be taken between correct stations.
pub fn count<V: Copy>(tables: &Tables<V>, figures: &Figures<V>) -> (usize, usize)
    requires { Sound figures.now tables.now }
    ensures { result ≡ counts (view figures.now tables.now) }
{
    let mut waiting = 0;
    let mut takeable = 0;
    for message in tables.pool.messages() {
        waiting += 1;
        if is_takeable(tables, figures, message) {
            takeable += 1;
        }
    }
    (waiting, takeable)
}
