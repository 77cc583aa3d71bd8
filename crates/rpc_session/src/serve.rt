ghost use Rattle.std.specs.Prelude.{◌≡◌, ◌≢◌, ◌<◌, ◌≤◌, ◌+◌, ◌^◌, Ok, Err, IfOk, IfErr, codes};
ghost use Rattle.std.specs.Prelude.{length, slice_index_or};
ghost use Rattle.rpc_session.specs.Arguments.{id_in};
ghost use Rattle.rpc_session.specs.SessionList.{nobody};
ghost use Rattle.rpc_session.specs.Serve as spec;

use crate::arguments::{session_named, timeout_in};
use crate::description::describe;
use crate::method::{Change, Method, Question};
use crate::sessions::search;
use crate::{Session, SessionError, Sessions};
use blob_codec::Attr;
use sqlite_items::Items;

impl Sessions {
    /// Carries out a call of the object `session`, and gives its answer.
    ///
    /// The methods are `create`, `list`, `grant`, `revoke`, `access`, `set`, `get`, `unset` and
    /// `destroy`. A live session that the arguments name is renewed, whatever the method is and
    /// whether it is refused.
    ///
    /// # Errors
    ///
    /// `NoMethod` where there is no such method. `Argument` where an argument is missing or of
    /// another form, as an id that is not 32 hexadecimal digits. `NoSession` where no live session
    /// has the id; `grant`, `revoke` and `destroy` look at presence alone. `Full` where there are
    /// 1,024 sessions. `DefaultSession` where the default session would be destroyed. `Memory`
    /// where there was not enough memory. A call that is refused renews the session, and does no
    /// more.
    pub fn serve(
        &mut self,
        method: &[u8],
        args: &[Attr],
        now: u64,
        word: u64,
    ) -> Result<Items<Attr>, SessionError>
        requires { method.now ≡ codes "create" → self.old.next < 2 ^ 63 }
        ensures done { result ≢ Err SessionError.Memory →
            spec.IsDone (spec.session_done method.now args.now now word self.old) result self.new }
        ensures memory { result ≡ Err SessionError.Memory →
            self.new ≡ spec.renewed args.now now self.old }
        ensures number { self.new.next ≤ self.old.next + 1 }
    {
        self.renew(args, now);
        match Method::of(method) {
            None => Err(SessionError::NoMethod),
            Some(Method::Create) => self.serve_create(args, now, word),
            Some(Method::Destroy) => self.serve_destroy(args),
            Some(Method::Ask(question)) => self.serve_question(question, args, now),
            Some(Method::Alter(change)) => self.serve_change(change, args, now),
        }
    }

    fn renew(&mut self, args: &[Attr], now: u64)
        ensures renewed { self.new ≡ spec.renewed args.now now self.old }
        ensures next { self.new.next ≡ self.old.next }
    {
        if let Some(sid) = session_named(args) {
            drop(self.used(sid, now));
        }
    }

    fn serve_create(
        &mut self,
        args: &[Attr],
        now: u64,
        word: u64,
    ) -> Result<Items<Attr>, SessionError>
        requires { self.old.next < 2 ^ 63 }
        ensures done { result ≢ Err SessionError.Memory →
            spec.IsDone (spec.create_by args.now now word self.old) result self.new }
        ensures memory { result ≡ Err SessionError.Memory → self.new ≡ self.old }
        ensures number { self.new.next ≤ self.old.next + 1 }
    {
        let Some(timeout) = timeout_in(args) else {
            return Err(SessionError::Argument);
        };
        let alloc = *self.rows.allocator();
        let session = Session::fresh(alloc, self.next_id(word), timeout, now);
        let told = describe(alloc, &session, now)?;
        match self.create(timeout, now, word) {
            Ok(_) => Ok(told),
            Err(error) => Err(error),
        }
    }

    fn serve_destroy(&mut self, args: &[Attr]) -> Result<Items<Attr>, SessionError>
        ensures done { spec.IsDone (spec.destroy_by args.now self.old) result self.new }
        ensures number { self.new.next ≡ self.old.next }
    {
        let Some(sid) = session_named(args) else {
            return Err(SessionError::Argument);
        };
        match self.destroy(sid) {
            Ok(()) => Ok(Items::new(*self.rows.allocator())),
            Err(error) => Err(error),
        }
    }

    fn serve_question(
        &self,
        question: Question,
        args: &[Attr],
        now: u64,
    ) -> Result<Items<Attr>, SessionError>
        ensures { result ≢ Err SessionError.Memory →
            spec.IsDone (spec.ask_by question args.now now self.now) result self.now }
    {
        let alloc = *self.rows.allocator();
        match self.live(session_named(args), now) {
            Ok(place) => self.rows[place].answer(alloc, question, args, now),
            Err(error) => Err(error),
        }
    }

    fn serve_change(
        &mut self,
        change: Change,
        args: &[Attr],
        now: u64,
    ) -> Result<Items<Attr>, SessionError>
        ensures done { result ≢ Err SessionError.Memory →
            spec.IsDone (spec.alter_by change args.now now self.old) result self.new }
        ensures memory { result ≡ Err SessionError.Memory → self.new ≡ self.old }
        ensures number { self.new.next ≡ self.old.next }
    {
        let alloc = *self.rows.allocator();
        match self.place_for(change, session_named(args), now) {
            Ok(place) => {
                self.rows[place].alter(alloc, change, args)?;
                Ok(Items::new(alloc))
            }
            Err(error) => Err(error),
        }
    }

    /// The place of the session of an id.
    fn present(&self, sid: Option<u128>) -> Result<usize, SessionError>
        ensures found { IfOk result
            (λ place. spec.Stands self.now place (spec.present sid self.now)) }
        ensures refused { IfErr result (λ error. spec.present sid self.now ≡ Err error) }
    {
        let Some(sid) = sid else {
            return Err(SessionError::Argument);
        };
        match search(&self.rows, sid) {
            Ok(place) => Ok(place),
            Err(_) => Err(SessionError::NoSession),
        }
    }

    /// The place of the live session of an id.
    fn live(&self, sid: Option<u128>, now: u64) -> Result<usize, SessionError>
        ensures found { IfOk result (λ place.
            spec.Stands self.now place (spec.live sid now self.now)) }
        ensures refused { IfErr result (λ error. spec.live sid now self.now ≡ Err error) }
    {
        match self.present(sid) {
            Ok(place) if self.rows[place].is_live(now) => Ok(place),
            Ok(_) => Err(SessionError::NoSession),
            Err(error) => Err(error),
        }
    }

    /// The place of the session that a change is for.
    fn place_for(&self, change: Change, sid: Option<u128>, now: u64) -> Result<usize, SessionError>
        ensures found { IfOk result (λ place.
            spec.Stands self.now place (spec.session_for change sid now self.now)) }
        ensures refused { IfErr result (λ error.
            spec.session_for change sid now self.now ≡ Err error) }
    {
        match change {
            Change::Grant | Change::Revoke => self.present(sid),
            Change::Set | Change::Unset => self.live(sid, now),
        }
    }
}
