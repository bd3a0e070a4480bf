//! Runs a command of a client.

ghost use Rattle.std.specs.Prelude.{◌≡◌, ◌++◌, ◌∷◌, IfErr, IfSome, IsSome, OnErr, OnOk, option_map};
ghost use Rattle.resp_value.specs.Canonical.{canonical_text};
ghost use Rattle.resp_value.specs.declared.version.Version.TheVariants.{Two};
ghost use Rattle.resp_session.specs.Operations.{operation_of};
ghost use Rattle.resp_session.specs.Replies.{natural};
ghost use Rattle.resp_frames.specs.Commands.{IsCommand};
ghost use Rattle.resp_server.specs.Deeds.{DbSize, Exists, Hello, Request, asked_by};
ghost use Rattle.resp_server.specs.Doing.{HasChanged, HasDone, HasDoneNothing, HasRun, IsOfClient, IsUnchanged, KeepsBegun};
ghost use Rattle.resp_server.specs.Rejections.{OnRejection};
ghost use Rattle.resp_server.specs.Running.{FitsWords};

use crate::databases::Databases;
use crate::databases::client::Client;
use crate::databases::deed::{Deed, deed_of};
use crate::databases::rejection::{Rejection, TakeError};
use crate::databases::reply::{reply_name, reply_ok, reply_unknown};
use crate::reply;
use crate::words::Words;
use bytes::BytesMut;
use resp_scan::whole;
use resp_scan::whole::CommandArguments;
use resp_value::laws::no_spelling_begins_another;
use resp_value::version::Version;
use std::alloc::AllocError;
use std::hash::BuildHasher;

impl<S: BuildHasher + Copy> Databases<S> {
    /// Runs the command of a client with these bytes, and queues the reply.
    ///
    /// # Errors
    ///
    /// `Rejected` if the bytes are not a command within the limits, and `OutOfMemory` if an
    /// allocation fails. Then nothing is changed.
    pub(crate) fn run(&mut self, client: &mut Client, command: &[u8]) -> Result<(), TakeError>
        ensures done { OnOk result
            (HasRun command.now self.old self.new client.old client.new) }
        ensures failed { OnErr result
            (HasDoneNothing self.old self.new client.old client.new) }
        ensures no_command { IfErr result (OnRejection
            (λ why. IsCommand self.old.limits command.now → ⊥)) }
        ensures same_begun { KeepsBegun client.old client.new }
    {
        no_spelling_begins_another();
        let Some(words) = whole::command(command, &self.limits) else {
            return Err(TakeError::Rejected(Rejection::NoCommand));
        };
        if !words.rest.is_empty() {
            return Err(TakeError::Rejected(Rejection::NoCommand));
        }
        match deed_of(words.name, words.arguments) {
            Ok(deed) => match self.perform(client, deed) {
                Ok(()) => Ok(()),
                Err(AllocError) => Err(TakeError::OutOfMemory),
            },
            Err(arguments) => match self.pass(client, words.name, arguments) {
                Ok(()) => Ok(()),
                Err(AllocError) => Err(TakeError::OutOfMemory),
            },
        }
    }

    /// Does what a command asks for, and queues the reply.
    fn perform(&mut self, client: &mut Client, deed: Deed<'_>) -> Result<(), AllocError>
        ensures done { OnOk result
            (HasDone (asked_by deed.entry) self.old self.new client.old client.new) }
        ensures failed { OnErr result
            (HasDoneNothing self.old self.new client.old client.new) }
        ensures same_begun { KeepsBegun client.old client.new }
    {
        match deed {
            Deed::Exists(keys) => self.count(client, keys),
            Deed::DbSize => self.size(client),
            Deed::FlushDb => {
                reply_ok(&mut client.out)?;
                self.flush(client.database);
                Ok(())
            }
            Deed::FlushAll => {
                reply_ok(&mut client.out)?;
                self.flush_all();
                Ok(())
            }
            deed => change(client, deed),
        }
    }

    /// Runs the command of this name with these words after it in the client's database, and queues
    /// the reply.
    fn pass(
        &mut self,
        client: &mut Client,
        name: &[u8],
        arguments: CommandArguments<'_>,
    ) -> Result<(), AllocError>
        requires { FitsWords self.old.limits (name.now ∷ arguments) }
        ensures done { OnOk result (HasDone (Request (operation_of name.now arguments.entry))
            self.old self.new client.old client.new) }
        ensures failed { OnErr result
            (HasDoneNothing self.old self.new client.old client.new) }
        ensures same_begun { KeepsBegun client.old client.new }
    {
        let Some(database) = self.list.get_mut(client.database) else {
            return Err(AllocError);
        };
        database.run(
            name,
            Words::Lent(arguments),
            client.id,
            &mut client.version,
            &mut client.out,
        )
    }

    /// Queues the number of these keys that exist in the client's database.
    fn count(&self, client: &mut Client, keys: CommandArguments<'_>) -> Result<(), AllocError>
        ensures done { OnOk result
            (HasDone (Exists keys.entry) self.now self.now client.old client.new) }
        ensures failed { OnErr result (IsUnchanged client.old client.new) }
        ensures same_begun { KeepsBegun client.old client.new }
    {
        match self.list.get(client.database) {
            Some(database) => reply_count(&mut client.out, database.count(keys)),
            None => reply::number(&mut client.out, 0),
        }
    }

    /// Queues the number of keys of the client's database.
    fn size(&self, client: &mut Client) -> Result<(), AllocError>
        ensures done { OnOk result (HasDone DbSize self.now self.now client.old client.new) }
        ensures failed { OnErr result (IsUnchanged client.old client.new) }
        ensures same_begun { KeepsBegun client.old client.new }
    {
        match self.list.get(client.database) {
            Some(database) => reply_count(&mut client.out, database.size()),
            None => reply::number(&mut client.out, 0),
        }
    }
}

/// Appends the reply to a number.
fn reply_count(out: &mut BytesMut, count: Option<u64>) -> Result<(), AllocError>
    ensures appended { OnOk result (IfSome count (λ count. out.new.items ≡ out.old.items ++
        canonical_text Two (natural count))) }
    ensures some { OnOk result (IsSome count) }
    ensures unchanged { OnErr result (out.new.items ≡ out.old.items) }
{
    match count {
        Some(count) => reply::number(out, count),
        None => Err(AllocError),
    }
}

/// Does what a command asks of the client itself, and queues the reply.
fn change(client: &mut Client, deed: Deed<'_>) -> Result<(), AllocError>
    ensures done { IsOfClient deed.entry →
        OnOk result (HasChanged (asked_by deed.entry) client.old client.new) }
    ensures failed { OnErr result (IsUnchanged client.old client.new) }
    ensures same_begun { KeepsBegun client.old client.new }
{
    match deed {
        Deed::Select(index) => {
            reply_ok(&mut client.out)?;
            client.database = index;
            Ok(())
        }
        Deed::SetName(name) => {
            let name = name.to_vec(client.alloc)?;
            reply_ok(&mut client.out)?;
            client.name = name;
            Ok(())
        }
        Deed::GetName => reply_name(&mut client.out, client.version, &client.name),
        Deed::Id => reply::number(&mut client.out, client.id),
        Deed::Hello(version, name) => greet(client, version, name),
        Deed::Quit => {
            reply_ok(&mut client.out)?;
            client.closing = true;
            Ok(())
        }
        Deed::Refused(refusal) => client.out.extend_from_slice(refusal.line()),
        Deed::UnknownSubcommand(word) => reply_unknown(&mut client.out, word),
        _ => reply_ok(&mut client.out),
    }
}

/// Changes the version of a client, gives it a name if there is one, and queues the reply to HELLO.
fn greet(client: &mut Client, version: Version, name: Option<&[u8]>) -> Result<(), AllocError>
    ensures done { OnOk result (HasChanged (Hello version (option_map (λ n. n.now) name.entry))
        client.old client.new) }
    ensures failed { OnErr result (IsUnchanged client.old client.new) }
    ensures same_begun { KeepsBegun client.old client.new }
{
    let Some(name) = name else {
        reply::greeting(&mut client.out, version, client.id)?;
        client.version = version;
        return Ok(());
    };
    let name = name.to_vec(client.alloc)?;
    reply::greeting(&mut client.out, version, client.id)?;
    client.name = name;
    client.version = version;
    Ok(())
}
