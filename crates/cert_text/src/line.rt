//! The lines of certificates.

ghost use Rattle.std.specs.Prelude.{◌≡◌, [], ◌∷◌, ◌++◌, OnOk, OnErr};

use std::alloc::{AllocError, Global};
use std::marker::Model;

/// An interval of a core's availability.
#[derive(Clone, Copy, PartialEq, Eq, Debug)]
pub struct Pair {
    pub lo: u64,
    pub hi: u64,
}

/// A job's interval of finish times.
#[derive(Clone, Copy, PartialEq, Eq, Debug)]
pub struct EndOf {
    pub job: u64,
    pub lo: u64,
    pub hi: u64,
}

/// Whether a job meets its deadline.
#[derive(Clone, Copy, PartialEq, Eq, Debug)]
pub enum Mark {
    Ok,
    Miss,
}

/// A list of pairs.
#[derive(Drop)]
pub struct Pairs {
    items: Vec<Pair>,
}

impl Model for Pairs {
    ghost use Rattle.std.specs.Prelude.{List};
    ghost use Rattle.cert_text.specs.declared.line.Pair.{Pair};

    ghost Value = { List Pair };

    ghost view = { λ s. s.items.items };
}

impl Pairs {
    /// No pairs.
    pub fn new(alloc: Global) -> Pairs
        ensures { result ≡ [] }
    {
        Pairs {
            items: Vec::new(alloc),
        }
    }

    /// Appends a pair. Where there is no memory, nothing changes.
    pub fn push(&mut self, item: Pair) -> Result<(), AllocError>
        ensures ok { OnOk result (self.new ≡ self.old ++ item ∷ []) }
        ensures err { OnErr result (self.new ≡ self.old) }
    {
        self.items.push(item)?;
        Ok(())
    }

    /// The list.
    pub fn as_slice(&self) -> &[Pair]
        ensures { result.now ≡ self.now }
    {
        self.items.as_slice()
    }
}

/// A list of ends.
#[derive(Drop)]
pub struct EndList {
    items: Vec<EndOf>,
}

impl Model for EndList {
    ghost use Rattle.std.specs.Prelude.{List};
    ghost use Rattle.cert_text.specs.declared.line.EndOf.{EndOf};

    ghost Value = { List EndOf };

    ghost view = { λ s. s.items.items };
}

impl EndList {
    /// No ends.
    pub fn new(alloc: Global) -> EndList
        ensures { result ≡ [] }
    {
        EndList {
            items: Vec::new(alloc),
        }
    }

    /// Appends an end. Where there is no memory, nothing changes.
    pub fn push(&mut self, item: EndOf) -> Result<(), AllocError>
        ensures ok { OnOk result (self.new ≡ self.old ++ item ∷ []) }
        ensures err { OnErr result (self.new ≡ self.old) }
    {
        self.items.push(item)?;
        Ok(())
    }

    /// The list.
    pub fn as_slice(&self) -> &[EndOf]
        ensures { result.now ≡ self.now }
    {
        self.items.as_slice()
    }
}

/// A list of job numbers.
#[derive(Drop)]
pub struct Numbers {
    items: Vec<u64>,
}

impl Model for Numbers {
    ghost use Rattle.std.specs.Prelude.{List, ℕ};

    ghost Value = { List ℕ };

    ghost view = { λ s. s.items.items };
}

impl Numbers {
    /// No numbers.
    pub fn new(alloc: Global) -> Numbers
        ensures { result ≡ [] }
    {
        Numbers {
            items: Vec::new(alloc),
        }
    }

    /// Appends a number. Where there is no memory, nothing changes.
    pub fn push(&mut self, item: u64) -> Result<(), AllocError>
        ensures ok { OnOk result (self.new ≡ self.old ++ item ∷ []) }
        ensures err { OnErr result (self.new ≡ self.old) }
    {
        self.items.push(item)?;
        Ok(())
    }

    /// The list.
    pub fn as_slice(&self) -> &[u64]
        ensures { result.now ≡ self.now }
    {
        self.items.as_slice()
    }
}

/// A line of a certificate.
#[derive(Drop)]
pub enum CertLine {
    Head {
        jobs: u64,
        cores: u64,
    },
    Level {
        number: u64,
        count: u64,
    },
    Root {
        pairs: Pairs,
    },
    State {
        parent: u64,
        job: u64,
        pairs: Pairs,
        ends: EndList,
        last: Numbers,
    },
    Edge {
        from: u64,
        job: u64,
        est: u64,
        lst: u64,
        to: u64,
    },
    Job {
        number: u64,
        lo: u64,
        hi: u64,
        mark: Mark,
    },
    Verdict {
        mark: Mark,
    },
    End,
}
