//! A simulation, and the effect of one event on it.

ghost use Rattle.std.specs.Prelude.{◌≡◌, IfOk, OnErr, OnOk, false, true};
ghost use Rattle.std.specs.Option.{option_map};
ghost use Rattle.turn_client_proto.specs.Clients.{stored_of};
ghost use Rattle.turn_desk_world.specs.Runs.{IsStep};

use crate::desk::ask;
use crate::driven::Driven;
use std::alloc::Global;
use std::marker::Model;
use stun_types_base::memory::NoMemory;
use turn_client_proto::client::TurnClient;
use turn_desk_core::desk::Desk;
use turn_desk_event::answer::Answer;
use turn_desk_event::event::Event;

/// A simulation: a server core, and a client if there is one. Contracts see the record `World` of
/// `specs/Model.antt`.
#[derive(Debug, Drop)]
pub struct World {
    alloc: Global,
    desk: Desk,
    driven: Driven,
    is_failed: bool,
}

impl Model for World {
    ghost use Rattle.turn_desk_world.specs.Model.{World as WorldModel, world_code};

    ghost Value = { WorldModel };

    ghost coded = { world_code };

    ghost view = { λ w. record {
      desk = w.desk;
      client = w.driven;
      is_failed = w.is_failed;
    } };
}

impl World {
    /// Returns a simulation of this server core and this client. It stores the allocator, and
    /// allocates nothing.
    pub fn new(alloc: Global, desk: Desk, client: Option<TurnClient>) -> World
        ensures { result ≡ record {
          desk = desk;
          client = option_map stored_of client;
          is_failed = false;
        } }
    {
        World {
            alloc,
            desk,
            driven: Driven { alloc, client },
            is_failed: false,
        }
    }

    /// Returns the server core.
    pub fn desk(&self) -> &Desk
        ensures { result.now ≡ self.now.desk }
    {
        &self.desk
    }

    /// Returns the client, if there is one.
    pub fn client(&self) -> Option<&TurnClient>
        ensures { option_map (λ c. stored_of c.now) result ≡ self.now.client }
    {
        self.driven.client.as_ref()
    }

    /// Returns the allocator of the results.
    pub fn alloc(&self) -> Global {
        self.alloc
    }

    /// Returns whether the simulation has failed: a call of the client or of the server core ran
    /// out of memory, or `fail` was called. Every event then returns `NoMemory`.
    pub fn is_failed(&self) -> bool
        ensures { result ≡ self.now.is_failed }
    {
        self.is_failed
    }

    /// Makes every later event return `NoMemory`. For a caller that ran out of memory itself.
    pub fn fail(&mut self)
        ensures { self.new ≡ record self.old { is_failed = true } }
    {
        self.is_failed = true;
    }

    /// Executes one event, and returns its result. The result is `OutOfRange` if the event is for
    /// the client and there is none, or its time is after `CLIENT_END`.
    ///
    /// # Errors
    ///
    /// - `NoMemory`: a call of the client or of the server core ran out of memory, now or in an
    ///   earlier event. Every later event fails in this way too.
    pub fn step(&mut self, event: &Event) -> Result<Answer, NoMemory>
        ensures step { IfOk result (λ answer. IsStep event.now self.old answer self.new) }
        ensures err { OnErr result (self.new.is_failed ≡ true) }
        ensures failed { OnOk result (self.old.is_failed ≡ false) }
    {
        if self.is_failed {
            return Err(NoMemory);
        }
        match self.happen(event) {
            Ok(answer) => Ok(answer),
            Err(e) => {
                self.is_failed = true;
                Err(e)
            }
        }
    }

    /// Executes one event of a simulation that has not failed.
    fn happen(&mut self, event: &Event) -> Result<Answer, NoMemory>
        ensures { IfOk result (λ answer. IsStep event.now self.old answer self.new) }
    {
        match event {
            Event::ToDesk {
                bytes,
                from,
                now,
                decision,
                seed,
            } => ask(
                &mut self.desk,
                bytes.as_slice(),
                *from,
                *now,
                decision,
                *seed,
            ),
            Event::Call(what, now) => self.driven.call(what, *now),
            Event::Draw(now) => self.driven.draw(*now),
            Event::ToClient {
                bytes,
                from,
                to,
                now,
            } => self.driven.feed(bytes.as_slice(), *from, *to, *now),
        }
    }
}
