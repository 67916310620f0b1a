//! The messages that a diagram has seen sent.
ghost use Rattle.std.specs.Prelude.{◌≡◌};
ghost use Rattle.std.specs.Option.{option_copied};
ghost use Rattle.rbac_pages.specs.DiagramText.{row_of_message};

/// A message that was sent: by whom, and in which row.
#[derive(Clone, Copy, Drop)]
pub(crate) struct Sent {
    pub(crate) member: u32,
    pub(crate) row: u64,
}

/// Message `number` of a member, counted from 1, if it was sent.
pub(crate) fn message_of(sent: &[Sent], from: u32, number: u32) -> Option<&Sent>
    ensures { option_copied result ≡ row_of_message sent.now from number }
{
    let mut before = number.saturating_sub(1);
    for one in sent {
        if one.member != from {
            continue;
        }
        if before == 0 {
            return Some(one);
        }
        before -= 1;
    }
    None
}
