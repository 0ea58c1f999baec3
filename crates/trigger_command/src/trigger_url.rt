//! The URLs of triggers' status resources.

ghost use Rattle.std.specs.Prelude.{◌≡◌, option_map};
ghost use Rattle.trigger_command.specs.TriggerUrl.{behind, number_behind, trigger_number};

use listing::read_decimal;
use targets::HostName;

// the number of the trigger whose status resource has this URL at the control host
#[tactic(auto, unfolding(crate::specs::TriggerUrl::trigger_number))]
pub(crate) fn trigger_number(text: &[u8], control: &HostName) -> Option<u64>
    ensures { result ≡ trigger_number control.now text.now }
{
    match number_behind(b"http://", control, text) {
        Some(number) => Some(number),
        None => number_behind(b"https://", control, text),
    }
}

// the number that follows this scheme, the control host and `/triggers/`
fn number_behind(scheme: &[u8], control: &HostName, text: &[u8]) -> Option<u64>
    ensures { result ≡ number_behind scheme.now control.now text.now }
{
    let rest = behind(scheme, text)?;
    let rest = behind(control.bytes(), rest)?;
    let rest = behind(b"/triggers/", rest)?;
    read_decimal(rest)
}

// what follows this front, where the text begins with it
fn behind<'a>(front: &[u8], text: &'a [u8]) -> Option<&'a [u8]>
    ensures { option_map (λ rest. rest.now) result ≡ behind front.now text.now }
{
    if front.len() <= text.len() && &text[..front.len()] == front {
        Some(&text[front.len()..])
    } else {
        None
    }
}
