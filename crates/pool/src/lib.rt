//! The messages on their way, in slots that the caller lends, in the order they joined.
#![tactic(auto)]

ghost use Rattle.std.specs.Prelude.{◌≡◌, ◌+◌, ◌<◌, ◌≤◌, [], ◌∷◌, ◌++◌, length, slice_get};
ghost use Rattle.std.specs.List.{remove};
ghost use Rattle.slices.specs.Lent.{SamePast};

// The first `waiting` slots hold the messages that wait; what the others hold means nothing.
#[derive(Drop)]
pub struct Pool<'a, M> {
    pub slots: &'a mut [M],
    pub waiting: usize,
}

impl<'a, M: Copy> Pool<'a, M> {
    ghost use Rattle.pool.specs.Pool.{in_order, Fits, JoinsEach};

    // The messages that wait.
    pub fn messages(&self) -> &[M]
        requires { Fits self.now }
        ensures { result.now ≡ in_order self.now }
    {
        &self.slots[..self.waiting]
    }

    // The message at a place, if one waits there.
    pub fn get(&self, place: usize) -> Option<M>
        requires { Fits self.now }
        ensures { result ≡ slice_get (in_order self.now) place }
    {
        self.messages().get(place).copied()
    }

    // The message at a place leaves, and those behind it move up.
    pub fn remove(&mut self, place: usize)
        requires fits { Fits self.old }
        requires waits { place < self.old.waiting }
        ensures order { in_order self.new ≡ remove (in_order self.old) place }
        ensures waiting { self.new.waiting + 1 ≡ self.old.waiting }
        ensures past { SamePast self.old.waiting self.old.slots self.new.slots }
    {
        self.slots.copy_within(place + 1..self.waiting, place);
        self.waiting -= 1;
    }

    // A message joins the end.
    pub fn join(&mut self, message: M)
        requires room { self.old.waiting < length self.old.slots.now }
        ensures order { in_order self.new ≡ in_order self.old ++ message ∷ [] }
        ensures waiting { self.new.waiting ≡ self.old.waiting + 1 }
        ensures past { SamePast self.new.waiting self.old.slots self.new.slots }
    {
        self.slots[self.waiting] = message;
        self.waiting += 1;
    }

    // A message to each of `count` stations joins the end, from station 0 on.
    pub fn join_each<F: Fn(usize) -> M>(&mut self, count: usize, message: F)
        requires callable { F.IsAlwaysCallable message }
        requires room { self.old.waiting + count ≤ length self.old.slots.now }
        ensures order { JoinsEach (F.post message) count self.old self.new }
        ensures waiting { self.new.waiting ≡ self.old.waiting + count }
        ensures past { SamePast self.new.waiting self.old.slots self.new.slots }
    {
        for k in 0..count {
            self.join(message(k));
        }
    }

    // Every message leaves.
    pub fn clear(&mut self)
        ensures order { in_order self.new ≡ [] }
        ensures waiting { self.new.waiting ≡ 0 }
        ensures past { SamePast 0 self.old.slots self.new.slots }
    {
        self.waiting = 0;
    }
}
