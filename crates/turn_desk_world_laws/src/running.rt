//! Runs of a simulation, and the theorem on them.

ghost use Rattle.std.specs.Prelude.{◌≡◌, IfOk, OnErr, OnOk, false, length, true};
ghost use Rattle.std.specs.List.{zip};
ghost use Rattle.turn_desk_world.specs.Runs.{IsRun, IsRunOfEach};
ghost use Rattle.turn_desk_world_laws.specs.Safety.{IsSafeRun};

use stun_types_base::memory::NoMemory;
use turn_desk_event::answer::Answer;
use turn_desk_event::event::Event;
use turn_desk_world::world::World;

/// The runs of a simulation.
pub trait Runs {
    /// Executes the events in order, and returns the result of each.
    fn run(&mut self, events: &[Event]) -> Result<Vec<Answer>, NoMemory>;
}

impl Runs for World {
    /// Executes the events in order, and returns the result of each. The result of a client's event
    /// is `OutOfRange` if there is no client, or if the event's time is after `CLIENT_END`.
    ///
    /// # Errors
    ///
    /// - `NoMemory`: an allocation failed, now or in an earlier call. Every later run fails in this
    ///   way too.
    ///
    /// # Premises of the theorem
    ///
    /// Clause `safe` is the theorem. Its first two premises are:
    ///
    /// 1. The client is new when the run begins (`BeginsNew`).
    /// 2. The relayed addresses that the driver decides, and the peers for which it asks the client
    ///    for channels and connections, have no flow information and no scope (`IsFair`).
    ///
    /// What it promises of the client's steps and of the server core's (`IsPromised`) has two more
    /// premises:
    ///
    /// 3. No two of the transaction IDs that the client generated in the run are equal
    ///    (`AreDistinct`).
    /// 4. Nothing was forged (`NoForgery`): if a message arrives and validates under a key that
    ///    counts, by the algorithm of that key, the client or the server core signed it under that
    ///    key, earlier in the run. This is presumed only of two kinds of messages: one with one of
    ///    the client's own transaction IDs, which arrives at the client or at the server core; and
    ///    a CONNECTION_ATTEMPT request that arrives at the client, which has an ID of its server's.
    ///
    /// A key counts if it is the key of the client's user name and password in a realm that the run
    /// names, for one of the algorithms. So three keys count for each such realm, one for each
    /// algorithm, and none in any other realm. The run names the server core's own realm, and each
    /// realm in a challenge that arrives at the client, forged or not. A new client remembers no
    /// realm yet (theorem `new_clients_keep_no_realm`).
    ///
    /// That a connection ends with its socket (`EndWithSockets`) needs only premises 1 and 2.
    ///
    /// # Theorems on an honest network
    ///
    /// Clause `run` (`IsRun`) is what the theorems of `turn_desk_laws` stand on. They say what a
    /// new client comes to hold, by a script (`honest_runs_allocate`) or as a driver's loop calls
    /// it over a network that takes time (`honest_loops_allocate`), what it then requests, binds
    /// and renews, and how it ends if nothing answers.
    fn run(&mut self, events: &[Event]) -> Result<Vec<Answer>, NoMemory>
        ensures each { IfOk result (λ answers. length answers.items ≡ length events.now) }
        ensures run { IfOk result (λ answers.
            IsRun self.old (zip events.now answers.items) self.new) }
        // The server core's events alone give its results, and the client's events alone give the
        // client's. No other results are possible; for the server core this has the premise that no
        // two of its users have equal USERHASHes.
        ensures sides { IfOk result (λ answers.
            IsRunOfEach self.old (zip events.now answers.items) self.new) }
        // If premises 1 to 4 hold:
        //
        // - The server core granted all that the client holds, in response to the client's own
        //   request for it.
        // - Nothing is returned as created twice for the same request.
        // - The server core had granted each address, permission, channel and bound connection that
        //   a getter lists, in response to the client's own request for it: a channel with that
        //   number to that peer, a connection with that connection ID to that peer.
        // - Data or a report from a peer names something in the client's lists that was granted in
        //   this way: the peer's permission or channel, or the connection on whose socket the data
        //   came.
        //
        // If premises 1 and 2 hold: after the socket between a local address and the server was
        // closed, a client over TCP has no bound connection with that local address, except those
        // that were bound since.
        ensures safe { IfOk result (λ answers.
            IsSafeRun self.old (zip events.now answers.items) self.new) }
        ensures err { OnErr result (self.new.is_failed ≡ true) }
        ensures failed { OnOk result (self.old.is_failed ≡ false) }
    {
        if self.is_failed() {
            return Err(NoMemory);
        }
        match run_each(self, events) {
            Ok(answers) => Ok(answers),
            Err(e) => {
                self.fail();
                Err(e)
            }
        }
    }
}

/// Executes the events in order, and returns the result of each. On an error it does not mark the
/// simulation as failed: that is left to `run`.
fn run_each(world: &mut World, events: &[Event]) -> Result<Vec<Answer>, NoMemory>
    ensures each { IfOk result (λ answers. length answers.items ≡ length events.now) }
    ensures run { IfOk result (λ answers.
        IsRun world.old (zip events.now answers.items) world.new) }
{
    let mut answers = Vec::with_capacity(world.alloc(), events.len())?;
    for event in events {
        let answer = world.step(event)?;
        answers.push(answer)?;
    }
    Ok(answers)
}
