//! One policy, opened from a founding file, changed by the texts of commands, and asked by bytes.
ghost use Rattle.std.specs.Prelude.{◌≡◌, ◌≢◌, IfOk, IfErr, OnOk, OnErr, Ok, Err, IsTrue};
ghost use Rattle.sorted_keys.specs.Keys.{has};
ghost use Rattle.rbac_terms.specs.Name.{pair_cmp};
ghost use Rattle.rbac_terms.specs.Reviews.{session_permissions};
ghost use Rattle.rbac_text.specs.AnswerText.{answer_text};
ghost use Rattle.rbac_dump.specs.DumpText.{dump_text, IsReadBack};
ghost use Rattle.rbac_embedded.specs.Calls.{after, applied, founded, verdict};
ghost use Rattle.rbac_embedded.specs.Status.{no_memory, status_number};
ghost use Rattle.rbac_embedded.specs.Subjects.{subjects};
ghost use Rattle.rbac_embedded.specs.Explaining.{TellsAsked};
ghost use Rattle.rbac_text.specs.Asked.{asked};

use crate::explaining::explanation_text;
use crate::status::Status;
use crate::subjects::subjects_text;
use crate::verdict::{Verdict, check};
use rbac_decide::Policy;
use rbac_dump::dump_lines;
use rbac_founding::{FoundingRefusal, read_founding};
use rbac_terms::{Answer, Command};
use rbac_text::{LineRefusal, Scratch, put_answer, read_asked};
use std::alloc::{AllocError, Global};
use std::marker::Model;

/// A policy, and the text of the answer to the last command.
#[derive(Drop)]
pub struct Monitor {
    policy: Policy,
    answer: Vec<u8>,
    // What texts are read with, kept from text to text.
    scratch: Scratch,
}

impl Model for Monitor {
    ghost use Rattle.rbac_embedded.specs.Kept.{Kept};

    ghost Value = { Kept };

    ghost view = { λ m. record { state = m.policy; answer = m.answer.items } };
}

/// The text of an answer.
fn text_of(alloc: Global, answer: &Answer) -> Result<Vec<u8>, AllocError>
    ensures { IfOk result (λ text. text.items ≡ answer_text answer.now) }
{
    let mut text = Vec::new(alloc);
    put_answer(&mut text, answer)?;
    Ok(text)
}

impl Monitor {
    /// Reads a founding file, and founds a policy with its vocabulary. No command was answered yet. The file's group is read, and not
    /// used.
    ///
    /// # Errors
    /// Why the file is refused, and `NoMemory` where memory ends.
    pub fn found(alloc: Global, file: &[u8]) -> Result<Monitor, FoundingRefusal>
        ensures founded { IfOk result (λ monitor. founded file.now ≡ Ok monitor) }
        ensures first_refusal { IfErr result (λ refusal. refusal ≢ FoundingRefusal.NoMemory → founded file.now ≡ Err refusal) }
    {
        let founding = read_founding(alloc, file)?;
        Ok(Monitor {
            policy: Policy::found(alloc, founding.vocabulary),
            answer: Vec::new(alloc),
            scratch: Scratch::new(alloc),
        })
    }

    /// Applies a command. The text for what changes something is made before the change; what is answered otherwise changes nothing, so
    /// that its text may be refused memory after it.
    fn answer_command(&mut self, alloc: Global, command: &Command) -> Result<(), AllocError>
        ensures after { OnOk result (self.new ≡ after command.now self.old) }
        ensures unchanged { OnErr result (self.new ≡ self.old) }
    {
        let done = text_of(alloc, &Answer::Done)?;
        let text = match self.policy.apply(alloc, command)? {
            Answer::Done => done,
            other => text_of(alloc, &other)?,
        };
        self.answer = text;
        Ok(())
    }

    /// Applies the command that a text asks for, a client line or a command by itself, and keeps the text of its answer. A command that is
    /// denied is applied too: it changes nothing, and its answer is the denial.
    ///
    /// # Errors
    /// Why the text is refused, and `NoMemory` where memory ends. Nothing has changed then, the last answer's text neither.
    pub fn apply(&mut self, alloc: Global, text: &[u8]) -> Result<(), LineRefusal>
        ensures applied { OnOk result (applied text.now self.old ≡ Ok self.new) }
        ensures first_refusal { IfErr result (λ refusal. refusal ≢ LineRefusal.NoMemory → applied text.now self.old ≡ Err refusal) }
        ensures unchanged { OnErr result (self.new ≡ self.old) }
    {
        let command = read_asked(alloc, text, &mut self.scratch)?;
        let answered = self.answer_command(alloc, &command);
        drop(command);
        match answered {
            Ok(()) => Ok(()),
            Err(_) => Err(LineRefusal::NoMemory),
        }
    }

    /// Whether the session of this name may perform the operation on the object. It takes no memory.
    pub fn check(&self, session: &[u8], operation: &[u8], object: &[u8]) -> Verdict
        ensures told { result ≡ verdict session.now operation.now object.now self.now.state }
        ensures listed { result ≡ Verdict.Granted → IsTrue (has pair_cmp (operation.now, object.now) (session_permissions self.now.state session.now)) }
    {
        check(&self.policy, session, operation, object)
    }

    /// The text of who may perform the operation on the object.
    ///
    /// # Errors
    /// The first that applies: that one of the texts is no name; that there is no such operation, no such object. `NoMemory` where
    /// memory ends.
    pub fn subjects(
        &self,
        alloc: Global,
        operation: &[u8],
        object: &[u8],
    ) -> Result<Vec<u8>, Status>
        ensures text { IfOk result (λ text. subjects operation.now object.now self.now.state ≡ Ok text.items) }
        ensures none { IfErr result (λ status. status_number status ≢ no_memory → subjects operation.now object.now self.now.state ≡ Err status) }
    {
        subjects_text(alloc, &self.policy, operation, object)
    }

    /// The text of why the command that a text asks for would be denied, or why a check is granted or refused (`explanation_text`). It
    /// changes nothing.
    ///
    /// # Errors
    /// Why the text is refused; `NoMemory` where memory ends.
    pub fn explain(&self, alloc: Global, text: &[u8]) -> Result<Vec<u8>, Status>
        ensures told { IfOk result (λ told. TellsAsked (asked text.now) self.now.state (Ok told.items)) }
        ensures refused { IfErr result (λ status. status_number status ≢ no_memory → TellsAsked (asked text.now) self.now.state (Err status)) }
    {
        match read_asked(alloc, text, &mut Scratch::new(alloc)) {
            Err(refusal) => Err(Status::BadCommand(refusal)),
            Ok(command) => {
                let told = explanation_text(alloc, &self.policy, &command);
                drop(command);
                match told {
                    Ok(told) => Ok(told),
                    Err(_) => Err(Status::NoMemory),
                }
            }
        }
    }

    /// The lines of the policy's dump, which `apply` reads as just the dump's commands. A policy that was just founded with its vocabulary
    /// answers each of them Done in this order, and they leave this very state (`dump_lines`).
    ///
    /// # Errors
    /// `AllocError` where there is no memory for them.
    pub fn dump(&self, alloc: Global) -> Result<Vec<u8>, AllocError>
        ensures text { IfOk result (λ text. text.items ≡ dump_text self.now.state) }
        ensures reads { OnOk result (IsReadBack self.now.state) }
    {
        dump_lines(alloc, &self.policy)
    }

    /// The text of the answer to the last command that was applied; empty before the first one.
    pub fn answer(&self) -> &[u8]
        ensures { result.now ≡ self.now.answer }
    {
        self.answer.as_slice()
    }
}
