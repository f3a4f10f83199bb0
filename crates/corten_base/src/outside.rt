//! What the outside gives and takes: sources and sinks of bytes, and gates at the calls of a thread.
ghost use Rattle.std.specs.Prelude.{◌≡◌, ℕ, ◌<◌, ◌≤◌, Option, List, length};

/// What a read gave.
#[derive(Clone, Copy, PartialEq, Eq, Debug)]
pub enum ReadAnswer {
    /// So many bytes, at the front of the buffer.
    Got(usize),
    /// There is no byte left.
    End,
    /// The source has failed.
    Failed,
}

/// A source of bytes.
///
/// It may tell the bytes that are left, and then a proof can follow them: no call changes whether it does. It counts its
/// faults in a `u64`, which never falls and stays at its end.
pub trait Source {
    ghost use Rattle.corten_base.specs.Outside.{IsRead, Rises};
    ghost use Rattle.corten_base.specs.declared.outside.ReadAnswer.{ReadAnswer};

    // The bytes that are left, where it tells them.
    ghost left: { Self → Option (List ℕ) };

    // How often it has failed.
    ghost faults: { Self → ℕ };

    /// Reads bytes into the front of the buffer, which may not be empty. What stands behind them in the buffer is not said.
    fn read(&mut self, buf: &mut [u8]) -> ReadAnswer
        requires { 0 < length buf.old }
        ensures answer { IsRead (left self.old) (left self.new) result buf.new }
        ensures count { faults self.old ≤ faults self.new }
        ensures failed { result ≡ ReadAnswer.Failed → Rises (faults self.old) (faults self.new) };
}

/// What a write took.
#[derive(Clone, Copy, PartialEq, Eq, Debug)]
pub enum WriteAnswer {
    /// So many bytes, from the front.
    Took(usize),
    /// The sink has failed, and took nothing.
    Failed,
}

/// A sink of bytes.
///
/// It may tell the bytes that it holds, and then a proof can follow them: no call changes whether it does. It counts its
/// faults in a `u64`, which never falls and stays at its end.
pub trait Sink {
    ghost use Rattle.corten_base.specs.Outside.{IsWrite, Rises};
    ghost use Rattle.corten_base.specs.declared.outside.WriteAnswer.{WriteAnswer};

    // The bytes that it holds, where it tells them.
    ghost held: { Self → Option (List ℕ) };

    // How often it has failed.
    ghost faults: { Self → ℕ };

    /// Takes some of the bytes, of which there has to be one.
    fn write(&mut self, bytes: &[u8]) -> WriteAnswer
        requires { 0 < length bytes.now }
        ensures answer { IsWrite (held self.old) (held self.new) result bytes.now }
        ensures count { faults self.old ≤ faults self.new }
        ensures failed { result ≡ WriteAnswer.Failed → Rises (faults self.old) (faults self.new) };
}

/// What is told of the calls of a thread while they are made. It changes nothing of the machine.
///
/// Calls of a thread, and places in the journal, count from 0.
pub trait Gate {
    /// The thread is about to make this call.
    fn before(&mut self, thread: u8, call: u32);

    /// The call is a transaction, and holds its rows.
    fn held(&mut self, thread: u8, call: u32);

    /// The call was answered, and its entry has this place in the journal.
    fn after(&mut self, thread: u8, call: u32, ticket: u64);
}
