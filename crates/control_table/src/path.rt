//! What stands at the control host.

ghost use Rattle.std.specs.Prelude.{◌≡◌, ℕ, ◌<◌, ◌^◌, ◌++◌, decimal, IfSome, Some, option_map};
ghost use Rattle.control_table.specs.Path.{Fits, filter_path, path_text};
ghost use Rattle.control_table.specs.declared.path.ControlPath.{ControlPath as Place};
ghost use Rattle.trigger_command.specs.TriggerUrl.{behind};
ghost use Rattle.trigger_status.specs.declared.job.Filter.{Filter as Which};

use listing::read_decimal;
use trigger_status::Filter;

/// What stands at the control host.
#[derive(Clone, Copy, Debug, PartialEq, Eq)]
pub enum ControlPath {
    /// A collection of triggers.
    Triggers { filter: Filter },
    /// A trigger.
    Trigger { id: u64 },
    /// The advertisement.
    Advertisement,
    /// The log files.
    Logs,
    /// A log file.
    Log { number: u64 },
}

/// What stands at a path, if something does.
pub fn read_path(path: &[u8]) -> Option<ControlPath>
    ensures found { IfSome result (λ place. Fits place × (path.now ≡ path_text place)) }
    ensures complete { (place : Place) → Fits place → path.now ≡ path_text place → result ≡ Some place }
{
    if let Some(filter) = read_filter(path) {
        return Some(ControlPath::Triggers { filter });
    }
    if path == b"/fci".as_slice() {
        return Some(ControlPath::Advertisement);
    }
    if path == b"/logs".as_slice() {
        return Some(ControlPath::Logs);
    }
    if let Some(id) = number_behind(b"/triggers/", path) {
        return Some(ControlPath::Trigger { id });
    }
    if let Some(number) = number_behind(b"/logs/", path) {
        return Some(ControlPath::Log { number });
    }
    None
}

// the collection at this path
fn read_filter(path: &[u8]) -> Option<Filter>
    ensures found { IfSome result (λ filter. path.now ≡ filter_path filter) }
    ensures complete { (filter : Which) → path.now ≡ filter_path filter → result ≡ Some filter }
{
    if path == b"/triggers".as_slice() {
        return Some(Filter::All);
    }
    if path == b"/triggers/pending".as_slice() {
        return Some(Filter::Pending);
    }
    if path == b"/triggers/active".as_slice() {
        return Some(Filter::Active);
    }
    if path == b"/triggers/complete".as_slice() {
        return Some(Filter::Complete);
    }
    if path == b"/triggers/failed".as_slice() {
        return Some(Filter::Failed);
    }
    None
}

// the number behind this front
fn number_behind(front: &[u8], path: &[u8]) -> Option<u64>
    ensures found { IfSome result (λ number. path.now ≡ front.now ++ decimal number) }
    ensures complete { (number : ℕ) → number < 2 ^ 64 → path.now ≡ front.now ++ decimal number → result ≡ Some number }
{
    let rest = behind(front, path)?;
    read_decimal(rest)
}

// what follows this front, where the path begins with it
fn behind<'a>(front: &[u8], path: &'a [u8]) -> Option<&'a [u8]>
    ensures { option_map (λ rest. rest.now) result ≡ behind front.now path.now }
{
    if front.len() <= path.len() && &path[..front.len()] == front {
        Some(&path[front.len()..])
    } else {
        None
    }
}
