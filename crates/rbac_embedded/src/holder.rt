//! A place for one monitor: the calls that another language makes, over values.
ghost use Rattle.std.specs.Prelude.{◌≡◌, ◌≢◌, None, option_map};
ghost use Rattle.rbac_embedded.specs.Holding.{answer_buffer, answer_length, answer_status, apply_buffer, apply_kept, apply_length, apply_status, asked, check_status, close_status, dump_buffer, dump_length, dump_status, open_status, opened, told_buffer, told_length, told_status, IsDumpRead};
ghost use Rattle.rbac_embedded.specs.Status.{no_memory, status_number};
ghost use Rattle.rbac_embedded.specs.Subjects.{subjects, Told};
ghost use Rattle.rbac_embedded.specs.Explaining.{IsExplanation};

use crate::buffer::tell;
use crate::monitor::Monitor;
use crate::status::Status;
use std::alloc::Global;
use std::marker::Model;

/// A monitor, or none.
#[derive(Drop)]
pub struct Holder {
    monitor: Option<Box<Monitor>>,
}

impl Model for Holder {
    ghost use Rattle.std.specs.Prelude.{Option, option_map};
    ghost use Rattle.rbac_embedded.specs.Kept.{Kept};

    ghost Value = { Option Kept };

    ghost view = { λ h. option_map (λ b. b.value) h.monitor };
}

impl Holder {
    /// None.
    pub fn empty() -> Holder
        ensures { result ≡ None }
    {
        Holder { monitor: None }
    }

    /// What a place had.
    pub fn of(monitor: Option<Box<Monitor>>) -> Holder
        ensures { result ≡ option_map (λ b. b.value) monitor }
    {
        Holder { monitor }
    }

    /// What a place is to have.
    pub fn into_monitor(self) -> Option<Box<Monitor>>
        ensures { option_map (λ b. b.value) result ≡ self }
    {
        let Holder { monitor } = self;
        monitor
    }

    /// Founds a policy with what a founding file says.
    pub fn open(&mut self, alloc: Global, file: &[u8]) -> Status
        ensures told { status_number result ≢ no_memory → result ≡ open_status file.now self.old }
        ensures opened { status_number result ≢ no_memory → self.new ≡ opened file.now self.old }
        ensures unchanged { status_number result ≡ no_memory → self.new ≡ self.old }
    {
        if self.monitor.is_some() {
            return Status::FullPlace;
        }
        match Monitor::found(alloc, file) {
            Ok(monitor) => match Box::new(alloc, monitor) {
                Ok(monitor) => {
                    self.monitor = Some(monitor);
                    Status::Done
                }
                Err(refused) => {
                    drop(refused);
                    Status::NoMemory
                }
            },
            Err(refusal) => Status::BadFounding(refusal),
        }
    }

    /// Applies the command that a text asks for, and puts its answer's text into the buffer, where that has room for all of it. Its
    /// length is written in each case. Where the buffer is too short, the command was applied nevertheless, once, and `answer` gives the
    /// text.
    pub fn apply(
        &mut self,
        alloc: Global,
        text: &[u8],
        out: &mut [u8],
        written: &mut usize,
    ) -> Status
        ensures told { status_number result ≢ no_memory → result ≡ apply_status text.now out.old self.old }
        ensures kept { status_number result ≢ no_memory → self.new ≡ apply_kept text.now self.old }
        ensures buffer { status_number result ≢ no_memory → out.new ≡ apply_buffer text.now out.old self.old }
        ensures length { status_number result ≢ no_memory → written.new ≡ apply_length text.now self.old }
        ensures unchanged { status_number result ≡ no_memory → self.new ≡ self.old }
        ensures buffer_unchanged { status_number result ≡ no_memory → out.new ≡ out.old }
        ensures no_length { status_number result ≡ no_memory → written.new ≡ 0 }
    {
        *written = 0;
        match &mut self.monitor {
            Some(monitor) => match monitor.apply(alloc, text) {
                Ok(()) => tell(monitor.answer(), out, written),
                Err(refusal) => Status::BadCommand(refusal),
            },
            None => Status::EmptyPlace,
        }
    }

    /// The text of the last answer again, as `apply` puts it; empty before the first one.
    pub fn answer(&self, out: &mut [u8], written: &mut usize) -> Status
        ensures told { result ≡ answer_status out.old self.now }
        ensures buffer { out.new ≡ answer_buffer out.old self.now }
        ensures length { written.new ≡ answer_length self.now }
    {
        *written = 0;
        match &self.monitor {
            Some(monitor) => tell(monitor.answer(), out, written),
            None => Status::EmptyPlace,
        }
    }

    /// Whether the session may perform the operation on the object. It takes no memory.
    pub fn check(&self, session: &[u8], operation: &[u8], object: &[u8]) -> Status
        ensures { result ≡ check_status session.now operation.now object.now self.now }
    {
        match &self.monitor {
            Some(monitor) => Status::Checked(monitor.check(session, operation, object)),
            None => Status::EmptyPlace,
        }
    }

    /// The lines that make the policy again, as `apply` puts a text: it reads them as just the commands of the dump. Changes nothing.
    pub fn dump(&self, alloc: Global, out: &mut [u8], written: &mut usize) -> Status
        ensures told { status_number result ≢ no_memory → result ≡ dump_status out.old self.now }
        ensures buffer { status_number result ≢ no_memory → out.new ≡ dump_buffer out.old self.now }
        ensures length { status_number result ≢ no_memory → written.new ≡ dump_length self.now }
        ensures reads { status_number result ≢ no_memory → IsDumpRead self.now }
        ensures buffer_unchanged { status_number result ≡ no_memory → out.new ≡ out.old }
        ensures no_length { status_number result ≡ no_memory → written.new ≡ 0 }
    {
        *written = 0;
        match &self.monitor {
            Some(monitor) => match monitor.dump(alloc) {
                Ok(text) => tell(&text, out, written),
                Err(_) => Status::NoMemory,
            },
            None => Status::EmptyPlace,
        }
    }

    /// The text of why the command that a text asks for would be denied, or why a check is granted or refused, as `apply` puts a text.
    /// Changes nothing.
    pub fn explain(
        &self,
        alloc: Global,
        command: &[u8],
        out: &mut [u8],
        written: &mut usize,
    ) -> Status
        ensures told { status_number result ≢ no_memory → (told : Told) × IsExplanation command.now self.now told × (result ≡ told_status told out.old) × (out.new ≡ told_buffer told out.old) × (written.new ≡ told_length told) }
        ensures buffer_unchanged { status_number result ≡ no_memory → out.new ≡ out.old }
        ensures no_length { status_number result ≡ no_memory → written.new ≡ 0 }
    {
        *written = 0;
        match &self.monitor {
            Some(monitor) => match monitor.explain(alloc, command) {
                Ok(text) => tell(&text, out, written),
                Err(status) => status,
            },
            None => Status::EmptyPlace,
        }
    }

    /// The text of who may perform the operation on the object, as `apply` puts a text: `{"sessions":[..],"users":[..]}`, each list
    /// sorted by bytes. Changes nothing. What is told is the first that applies: that there is no policy; that one of the texts is no
    /// name; that there is no such operation, no such object.
    pub fn subjects(
        &self,
        alloc: Global,
        operation: &[u8],
        object: &[u8],
        out: &mut [u8],
        written: &mut usize,
    ) -> Status
        ensures told { status_number result ≢ no_memory → result ≡ told_status (asked (λ kept. subjects operation.now object.now kept.state) self.now) out.old }
        ensures buffer { status_number result ≢ no_memory → out.new ≡ told_buffer (asked (λ kept. subjects operation.now object.now kept.state) self.now) out.old }
        ensures length { status_number result ≢ no_memory → written.new ≡ told_length (asked (λ kept. subjects operation.now object.now kept.state) self.now) }
        ensures buffer_unchanged { status_number result ≡ no_memory → out.new ≡ out.old }
        ensures no_length { status_number result ≡ no_memory → written.new ≡ 0 }
    {
        *written = 0;
        match &self.monitor {
            Some(monitor) => match monitor.subjects(alloc, operation, object) {
                Ok(text) => tell(&text, out, written),
                Err(status) => status,
            },
            None => Status::EmptyPlace,
        }
    }

    /// Ends the policy.
    pub fn close(&mut self) -> Status
        ensures told { result ≡ close_status self.old }
        ensures closed { self.new ≡ None }
    {
        match self.monitor.take() {
            Some(monitor) => {
                drop(monitor);
                Status::Done
            }
            None => Status::EmptyPlace,
        }
    }
}
