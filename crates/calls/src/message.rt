//! Who sent a message, and to whom.
ghost use Rattle.std.specs.Prelude.{◌≡◌};
ghost use Rattle.machine.specs.Calls.{sender, receiver};

use machine::message::Message;

pub(crate) fn sender<V: Copy>(message: &Message<V>) -> usize
    ensures { result ≡ sender message.now }
{
    match *message {
        Message::Init { sender, .. }
        | Message::Echo { sender, .. }
        | Message::Ready { sender, .. }
        | Message::WriteDone { sender, .. }
        | Message::Read { sender, .. }
        | Message::State { sender, .. }
        | Message::CatchUp { sender, .. }
        | Message::CatchUpDone { sender, .. } => sender,
    }
}

pub(crate) fn receiver<V: Copy>(message: &Message<V>) -> usize
    ensures { result ≡ receiver message.now }
{
    match *message {
        Message::Init { receiver, .. }
        | Message::Echo { receiver, .. }
        | Message::Ready { receiver, .. }
        | Message::WriteDone { receiver, .. }
        | Message::Read { receiver, .. }
        | Message::State { receiver, .. }
        | Message::CatchUp { receiver, .. }
        | Message::CatchUpDone { receiver, .. } => receiver,
    }
}
