//! A boxed request, so that little is moved when the table of requests changes.

ghost use Rattle.std.specs.Prelude.{◌≡◌, IfOk};
ghost use Rattle.stun_proto_transaction.specs.Agents.{changed, transmitted};

use crate::stun_types_base::memory::NoMemory;
use crate::transaction::{Change, Transaction};
use std::alloc::Global;
use std::marker::Model;

/// A boxed request. Contracts see the request.
#[derive(Debug, Drop)]
pub(crate) struct Stored {
    transaction: Box<Transaction>,
}

impl Model for Stored {
    ghost use Rattle.stun_proto_transaction.specs.Agents.{Transaction as TransactionOf};

    ghost Value = { TransactionOf };

    ghost view = { λ stored. stored.transaction.value };
}

impl Stored {
    /// Boxes a request.
    ///
    /// # Errors
    ///
    /// - `NoMemory`: an allocation failed.
    pub(crate) fn new(alloc: Global, transaction: Transaction) -> Result<Stored, NoMemory>
        ensures { IfOk result (λ stored. stored ≡ transaction) }
    {
        let transaction = Box::new(alloc, transaction)?;
        Ok(Stored { transaction })
    }

    /// The request.
    pub(crate) fn transaction(&self) -> &Transaction
        ensures { result.now ≡ self.now }
    {
        &self.transaction
    }

    /// Counts a transmission if one is left.
    pub(crate) fn transmit(&mut self, is_tcp: bool)
        ensures { self.new ≡ transmitted is_tcp self.old }
    {
        self.transaction.transmit(is_tcp);
    }

    /// Changes the request.
    pub(crate) fn change(&mut self, change: Change)
        ensures { self.new ≡ changed change self.old }
    {
        self.transaction.change(change);
    }
}
