//! The text of a message. Each call puts one text behind what the buffer has. A buffer of bytes refuses a write only for want of
//! memory, and then it may have a part of the text.
ghost use Rattle.std.specs.Prelude.{◌≡◌, ◌≤◌, ◌++◌, length, OnOk, Ok};
ghost use Rattle.rbac_words.specs.Message.{stamp_of};
ghost use Rattle.rbac_words.specs.declared.message.Message.TheVariants.{Batch, Ack};
ghost use Rattle.rbac_message_text.specs.MessageText.{acknowledgement_text, batch_text, longest_message, message_text};
ghost use Rattle.rbac_message_text.specs.Message.{message_read};

use crate::stamp::put_stamp;
use rbac_text::pieces::{put_number, put_piece};
use rbac_text::put_commands;
use rbac_words::{Command, Message, Stamp};
use std::alloc::AllocError;

/// The text of commands of one caller that were sent with this stamp. Where it is not too long, and the stamp is that of a message, it
/// reads as just that message.
///
/// # Errors
/// `AllocError` where there is no memory for it.
pub fn put_batch(
    text: &mut Vec<u8>,
    stamp: Stamp,
    caller: u32,
    serial: u32,
    commands: &[Command],
) -> Result<(), AllocError>
    ensures text { OnOk result (text.new.items ≡ text.old.items ++ batch_text stamp caller serial commands.now) }
    ensures reads_back { OnOk result (stamp.place ≡ 0 → length (batch_text stamp caller serial commands.now) ≤ longest_message → message_read (batch_text stamp caller serial commands.now) ≡ Ok (Batch stamp caller serial commands.now)) }
{
    put_number(text, "{\"caller\":", u64::from(caller))?;
    put_commands(text, ",\"commands\":", commands)?;
    put_number(text, ",\"serial\":", u64::from(serial))?;
    put_stamp(text, ",\"stamp\":", stamp)?;
    put_piece(text, "}")
}

/// The text of an acknowledgement that was sent with this stamp. Where that is the stamp of a message, it reads as just that message.
///
/// # Errors
/// `AllocError` where there is no memory for it.
pub fn put_acknowledgement(text: &mut Vec<u8>, stamp: Stamp) -> Result<(), AllocError>
    ensures text { OnOk result (text.new.items ≡ text.old.items ++ acknowledgement_text stamp) }
    ensures reads_back { OnOk result (stamp.place ≡ 0 → message_read (acknowledgement_text stamp) ≡ Ok (Ack stamp)) }
{
    put_stamp(text, "{\"stamp\":", stamp)?;
    put_piece(text, "}")
}

/// The text of a message. Where it is not too long, and has the stamp of a message, it reads as just that message.
///
/// # Errors
/// `AllocError` where there is no memory for it.
pub fn put_message(text: &mut Vec<u8>, message: &Message) -> Result<(), AllocError>
    ensures text { OnOk result (text.new.items ≡ text.old.items ++ message_text message.now) }
    ensures reads_back { OnOk result ((stamp_of message.now).place ≡ 0 → length (message_text message.now) ≤ longest_message → message_read (message_text message.now) ≡ Ok message.now) }
{
    match message {
        Message::Batch {
            stamp,
            caller,
            serial,
            commands,
        } => put_batch(text, *stamp, *caller, *serial, commands.as_slice()),
        Message::Ack { stamp } => put_acknowledgement(text, *stamp),
    }
}
