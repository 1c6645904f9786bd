//! The state of a replay, and the effect of one line on it.

ghost use Rattle.std.specs.Prelude.{◌≡◌, ◌≤◌, ◌||◌, ◌++◌, ◌∷◌, [], Err, IfOk, IfSome, OnOk, false, is_some, length, true};
ghost use Rattle.std.specs.Option.{option_map};
ghost use Rattle.std.specs.String.{string_bytes};
ghost use Rattle.turn_client_proto.specs.Clients.{stored_of};
ghost use Rattle.turn_desk_trace.specs.Answer.{named_by};
ghost use Rattle.turn_desk_trace.specs.Setup.{CanAsk};
ghost use Rattle.turn_desk_world.specs.Progress.{IsBounded, IsClientAdded, IsDeskAdded, IsRtoSet, IsRunOfOne, IsSetUp, IsUserAdded, can_happen, can_happen_in, can_look, can_set_up, client_of, is_of_client, progress_of, world_of};
ghost use Rattle.turn_desk_world.specs.Replay.{IsBadLine, IsSeen, line_text, start};
ghost use Rattle.turn_desk_world.specs.Keeping.{IsHappenedStored, IsLineDoneStored, IsReportedStored};
ghost use Rattle.turn_desk_world.specs.Wanted.{is_wanted, stored_if};

use crate::looking::look_at;
use crate::setting::{Rto, add_user, new_client, new_desk};
use crate::world::World;
use line_io::cut::is_skipped;
use line_io::refusal::LineError;
use std::alloc::{AllocError, Global};
use stun_proto_auth::feature::Feature;
use stun_proto_auth::supported::SupportedIntegrity;
use stun_types_base::memory::NoMemory;
use stun_types_base::transport::TransportType;
use turn_client_proto::client::TurnClient;
use turn_desk_core::desk::Desk;
use turn_desk_event::answer::Answer;
use turn_desk_event::event::Event;
use turn_desk_event::print::answer_line;
use turn_desk_trace::line::{Line, read_line};
use turn_desk_trace::look::Look;
use turn_desk_trace::named::Named;
use turn_desk_trace::setup::{Client, MAX_REALM, MAX_USERNAME, Setup};

/// The state of a replay between two lines. It holds:
///
/// - what the setup lines have created;
/// - the simulation, from the first event on;
/// - for each event line so far the bytes of its result, or no bytes if no line can name them.
///
/// Contracts see the record `Progress` of `specs/Progress.antt`, by `progress_of`.
#[derive(Debug, Drop)]
pub(crate) struct Progress {
    alloc: Global,
    desk: Option<Desk>,
    rto: Option<Rto>,
    client: Option<TurnClient>,
    world: Option<World>,
    named: Vec<Named>,
}

impl Progress {
    /// Returns the state before the first line. It stores the allocator, and has room for the
    /// results of `lines` event lines.
    ///
    /// # Errors
    ///
    /// - `NoMemory`: an allocation failed.
    pub(crate) fn new(alloc: Global, lines: usize) -> Result<Self, NoMemory>
        ensures { IfOk result (λ progress. progress_of progress ≡ start) }
    {
        let named = Vec::with_capacity(alloc, lines)?;
        Ok(Progress {
            alloc,
            desk: None,
            rto: None,
            client: None,
            world: None,
            named,
        })
    }

    /// Executes a line; a blank line or a comment does nothing. Returns the line to print if it is
    /// an event line or a look line. The bytes of an event's result are stored if a line can name
    /// them, as its flag in `wanted` says.
    ///
    /// # Errors
    ///
    /// After an error the replay has ended.
    ///
    /// - `Bad`: the line is not in the language, or is not allowed at this point.
    /// - `NoMemory`: an allocation failed.
    pub(crate) fn take_line(
        &mut self,
        line: &[u8],
        wanted: &[bool],
    ) -> Result<Option<String>, LineError>
        ensures done { IfOk result (λ text. IsLineDoneStored wanted.now (progress_of self.old)
            line.now (line_text (option_map (λ t. string_bytes t) text)) (progress_of self.new)) }
        ensures bad { result ≡ Err LineError.Bad → IsBadLine (progress_of self.old) line.now }
    {
        if is_skipped(line) {
            return Ok(None);
        }
        match read_line(self.alloc, line, self.named.as_slice()) {
            Ok(Line::Setup(setup)) => match self.set_up(&setup) {
                Ok(()) => Ok(None),
                Err(error) => Err(error),
            },
            Ok(Line::Look(look)) => match self.report_look(look) {
                Ok(text) => Ok(Some(text)),
                Err(error) => Err(error),
            },
            Ok(Line::Event(event)) => match self.report(event, wanted) {
                Ok(text) => Ok(Some(text)),
                Err(error) => Err(error),
            },
            Err(error) => Err(error),
        }
    }

    /// Executes a setup line.
    ///
    /// # Errors
    ///
    /// - `Bad`: the line is not allowed at this point. It comes after an event line; it is a second
    ///   `desk`, `rto` or `client`; it is a `user` before the `desk`; or it is an `rto` after the
    ///   `client`.
    /// - `NoMemory`: an allocation failed.
    fn set_up(&mut self, setup: &Setup<'_>) -> Result<(), LineError>
        requires { IsBounded setup.now }
        ensures ok { OnOk result ((can_set_up (progress_of self.old) setup.now ≡ true)
            × IsSetUp (progress_of self.old) setup.now (progress_of self.new)) }
        ensures bad { result ≡ Err LineError.Bad
            → can_set_up (progress_of self.old) setup.now ≡ false }
    {
        if self.world.is_some() {
            return Err(LineError::Bad);
        }
        match setup {
            Setup::Desk {
                realm,
                algorithms,
                anonymity,
                clients,
            } => self.add_desk(realm, *algorithms, *anonymity, *clients),
            Setup::User { name, password } => self.add_user(name, password),
            Setup::Rto {
                initial,
                max,
                retransmits,
                last,
            } => self.set_rto(Rto {
                initial: *initial,
                max: *max,
                retransmits: *retransmits,
                last: *last,
            }),
            Setup::Client { by, over, settings } => self.add_client(*by, *over, settings),
        }
    }

    /// Creates the server core. Fails with `Bad` if there is one, or with `NoMemory`.
    fn add_desk(
        &mut self,
        realm: &str,
        algorithms: SupportedIntegrity,
        anonymity: Feature,
        clients: Option<u32>,
    ) -> Result<(), LineError>
        requires realm { length realm.now ≤ MAX_REALM }
        requires clients { IfSome clients (λ n. 1 ≤ n) }
        ensures ok { OnOk result (IsDeskAdded (progress_of self.old) realm.now algorithms
            anonymity clients (progress_of self.new)) }
        ensures bad { result ≡ Err LineError.Bad → is_some self.old.desk ≡ true }
    {
        if self.desk.is_some() {
            return Err(LineError::Bad);
        }
        let desk = new_desk(self.alloc, realm, algorithms, anonymity, clients)?;
        self.desk = Some(desk);
        Ok(())
    }

    /// Adds a user to the server core. Fails with `Bad` if there is no server core, or with
    /// `NoMemory`.
    fn add_user(&mut self, name: &str, password: &str) -> Result<(), LineError>
        ensures ok { OnOk result (IsUserAdded (progress_of self.old) name.now password.now
            (progress_of self.new)) }
        ensures bad { result ≡ Err LineError.Bad → is_some self.old.desk ≡ false }
    {
        let Some(mut desk) = self.desk.take() else {
            return Err(LineError::Bad);
        };
        add_user(self.alloc, &mut desk, name, password)?;
        self.desk = Some(desk);
        Ok(())
    }

    /// Sets the retransmission timeouts of the client's requests. Fails with `Bad` if they are set
    /// already, or there is a client.
    fn set_rto(&mut self, rto: Rto) -> Result<(), LineError>
        ensures ok { OnOk result (IsRtoSet (progress_of self.old) rto (progress_of self.new)) }
        ensures bad { result ≡ Err LineError.Bad
            → (is_some self.old.rto || is_some self.old.client) ≡ true }
    {
        if self.rto.is_some() || self.client.is_some() {
            return Err(LineError::Bad);
        }
        self.rto = Some(rto);
        Ok(())
    }

    /// Creates the client. Fails with `Bad` if there is one, or with `NoMemory`.
    fn add_client(
        &mut self,
        by: TransportType,
        over: TransportType,
        settings: &Client<'_>,
    ) -> Result<(), LineError>
        requires name { length settings.now.name.now ≤ MAX_USERNAME }
        requires over { CanAsk by over }
        ensures ok { OnOk result (IsClientAdded (progress_of self.old) by over settings.now
            (progress_of self.new)) }
        ensures bad { result ≡ Err LineError.Bad → is_some self.old.client ≡ true }
    {
        if self.client.is_some() {
            return Err(LineError::Bad);
        }
        let client = new_client(self.alloc, by, over, settings, self.rto)?;
        self.client = Some(client);
        Ok(())
    }
}

impl Progress {
    /// Looks at the client, and returns the line that prints what it says.
    ///
    /// # Errors
    ///
    /// - `Bad`: there is no client.
    /// - `NoMemory`: an allocation failed.
    fn report_look(&self, look: Look) -> Result<String, LineError>
        ensures ok { IfOk result (λ text. IsSeen (client_of (progress_of self.now)) look
            (string_bytes text)) }
        ensures bad { result ≡ Err LineError.Bad → can_look (progress_of self.now) ≡ false }
    {
        let Some(client) = self.client() else {
            return Err(LineError::Bad);
        };
        let text = look_at(self.alloc, client, look)?;
        Ok(text)
    }

    /// Returns the client, if there is one.
    fn client(&self) -> Option<&TurnClient>
        ensures { option_map (λ c. stored_of c.now) result ≡ client_of (progress_of self.now) }
    {
        match &self.world {
            Some(world) => world.client(),
            None => self.client.as_ref(),
        }
    }

    /// Executes an event, and returns the line that prints its result.
    ///
    /// # Errors
    ///
    /// - `Bad`: there is no server core, or the event is for a client and there is none.
    /// - `NoMemory`: an allocation failed.
    fn report(&mut self, event: Event, wanted: &[bool]) -> Result<String, LineError>
        ensures ok { IfOk result (λ text. IsReportedStored wanted.now (progress_of self.old) event
            (string_bytes text) (progress_of self.new)) }
        ensures bad { result ≡ Err LineError.Bad
            → can_happen (progress_of self.old) event ≡ false }
    {
        let answer = self.happen(&event, wanted)?;
        let text = answer_line(self.alloc, &answer)?;
        Ok(text)
    }

    /// Executes an event, and returns its result. The bytes of the result are stored if a line can
    /// name them.
    ///
    /// # Errors
    ///
    /// - `Bad`: there is no server core, or the event is for a client and there is none.
    /// - `NoMemory`: an allocation failed.
    fn happen(&mut self, event: &Event, wanted: &[bool]) -> Result<Answer, LineError>
        ensures ok { IfOk result (λ answer. IsHappenedStored wanted.now (progress_of self.old)
            event.now answer (progress_of self.new)) }
        ensures bad { result ≡ Err LineError.Bad
            → can_happen (progress_of self.old) event.now ≡ false }
    {
        self.begin();
        let Some(world) = &mut self.world else {
            return Err(LineError::Bad);
        };
        if !can_happen_in(world, event) {
            return Err(LineError::Bad);
        }
        let answer = run_one(world, event)?;
        keep(self.alloc, wanted, &mut self.named, &answer)?;
        Ok(answer)
    }

    /// Before the first event, creates the simulation from the server core and the client that the
    /// setup lines created. Does nothing if there is no server core.
    fn begin(&mut self)
        ensures world { self.new.world ≡ world_of (progress_of self.old) }
        ensures named { self.new.named.items ≡ self.old.named.items }
    {
        if self.world.is_none()
            && let Some(desk) = self.desk.take()
        {
            self.world = Some(World::new(self.alloc, desk, self.client.take()));
        }
    }
}

/// Appends the bytes of a result to those of the results before it, or no bytes if no line can name
/// them.
fn keep(
    alloc: Global,
    wanted: &[bool],
    named: &mut Vec<Named>,
    answer: &Answer,
) -> Result<(), NoMemory>
    ensures { OnOk result (named.new.items ≡ named.old.items
        ++ stored_if (is_wanted wanted.now (length named.old.items)) (named_by answer.now) ∷ []) }
{
    let bytes = stored(alloc, is_wanted(wanted, named.len()), answer)?;
    named.push(bytes)?;
    Ok(())
}

/// Returns the flag at this index: whether a line can name that result. A missing flag counts as
/// set.
fn is_wanted(wanted: &[bool], index: usize) -> bool
    ensures { result ≡ is_wanted wanted.now index }
{
    match wanted.get(index) {
        Some(flag) => *flag,
        None => true,
    }
}

/// Returns the bytes of a result if they are wanted, and no bytes otherwise.
fn stored(alloc: Global, wanted: bool, answer: &Answer) -> Result<Named, AllocError>
    ensures { IfOk result (λ bytes. bytes ≡ stored_if wanted (named_by answer.now)) }
{
    if wanted {
        Named::of(alloc, answer)
    } else {
        Ok(Named::new(Vec::new(alloc)))
    }
}

/// Returns whether an event can happen in a simulation: an event for the client needs a client.
fn can_happen_in(world: &World, event: &Event) -> bool
    ensures { result ≡ can_happen_in world.now event.now }
{
    !is_of_client(event) || has_client(world)
}

/// Returns whether a simulation has a client.
fn has_client(world: &World) -> bool
    ensures { result ≡ is_some world.now.client }
{
    world.client().is_some()
}

/// Returns whether an event is for the client.
fn is_of_client(event: &Event) -> bool
    ensures { result ≡ is_of_client event.now }
{
    match event {
        Event::Call(_, _) | Event::Draw(_) | Event::ToClient { .. } => true,
        Event::ToDesk { .. } => false,
    }
}

/// Executes one event of a simulation, and returns its result.
fn run_one(world: &mut World, event: &Event) -> Result<Answer, NoMemory>
    ensures { IfOk result (λ answer. IsRunOfOne world.old event.now answer world.new) }
{
    match world.step(event) {
        Ok(answer) => Ok(answer),
        Err(e) => Err(e),
    }
}
