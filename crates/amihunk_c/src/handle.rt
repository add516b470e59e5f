//! What C holds between calls.
ghost use Rattle.std.specs.Prelude.{◌≡◌, Option, None, Some, MatchOption};
ghost use Rattle.amihunk_c.specs.Handles.{handle_owns, session_coded};
ghost use Rattle.amihunk_c.specs.declared.session.Session.{Session};

mod parts;

use crate::codes::Status;
use crate::session::Session;
use core::mem::replace;
use parts::Parts;
use std::alloc::Global;
use std::marker::Model;
use std::ptr::null_mut;

/// A session that C holds by a pointer: null if there is none.
///
/// C sees a struct of one pointer, since an allocator takes no bytes. It hands in a handle as the
/// last call left it, or null, and copies none that is open.
#[repr(C)]
pub struct Handle {
    ptr: *mut u8,
    alloc: Global,
    pub ghost session: { Option Session } by { session_coded },
}

impl Model for Handle {
    ghost also_owns = { λ h. handle_owns h.alloc h.ptr h.session };
}

impl Handle {
    ghost use Rattle.amihunk_c.specs.Sessions.{IsBegun};

    /// A handle without a session.
    pub(crate) fn vacant(alloc: Global) -> Handle
        ensures { result.session ≡ None }
    {
        Handle {
            ptr: null_mut(),
            alloc,
        }
    }

    fn of_parts(parts: Parts<Session, Global>) -> Handle
        ensures { result.session ≡ Some parts.value }
    {
        let Parts { ptr, alloc } = parts;
        Handle {
            ptr: ptr as *mut u8,
            alloc,
        }
    }

    fn into_parts(self) -> Option<Parts<Session, Global>>
        ensures { MatchOption result (self.session ≡ None)
            (λ parts. self.session ≡ Some parts.value) }
    {
        let Handle { ptr, alloc } = self;
        if ptr.is_null() {
            None
        } else {
            Some(Parts {
                ptr: ptr as *mut Session,
                alloc,
            })
        }
    }

    /// Begins this session, if its memory can be had.
    pub(crate) fn begin(&mut self, alloc: Global, session: Session) -> Status
        requires { self.old.session ≡ None }
        ensures { IsBegun session self.new.session result }
    {
        match Box::new(alloc, session) {
            Ok(session) => {
                self.put(session);
                Status::Ok
            }
            Err(_) => Status::OutOfMemory,
        }
    }

    /// Takes the session out.
    pub(crate) fn take(&mut self, alloc: Global) -> Option<Box<Session>>
        ensures vacant { self.new.session ≡ None }
        ensures session { MatchOption result (self.old.session ≡ None)
            (λ session. self.old.session ≡ Some session.value) }
    {
        match replace(self, Handle::vacant(alloc)).into_parts() {
            None => None,
            Some(parts) => Some(parts.into_box()),
        }
    }

    /// Puts a session in; one that is there is dropped.
    pub(crate) fn put(&mut self, session: Box<Session>)
        ensures { self.new.session ≡ Some session.value }
    {
        *self = Handle::of_parts(Parts::of(session));
    }
}

impl Drop for Handle {
    fn drop(self) {
        match self.into_parts() {
            None => {}
            Some(parts) => drop(parts.into_box()),
        }
    }
}
