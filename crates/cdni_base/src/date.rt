//! HTTP dates (RFC 9110, section 5.6.7).

ghost use Rattle.std.specs.Prelude.{◌≡◌, ◌<◌, ◌/◌};
ghost use Rattle.httpdate.specs.Date.{unix_secs, date_text};
ghost use Rattle.httpdate.specs.declared.date.HttpDate.{HttpDate as Date};
ghost use Rattle.cdni_base.specs.Scratch.{Puts};

use crate::scratch::Scratch;
use httpdate::HttpDate;
use listing::Moment;

/// The first moment of the year 10000, in milliseconds since the beginning of 1970, UTC.
pub const DATE_END: Moment = 253402300800000;

/// Puts the HTTP date of the second in which `moment` falls, as
/// `Fri, 17 May 2013 00:38:06 GMT`. False exactly where its 29 bytes do not fit; then nothing changes.
pub fn put_date(out: &mut Scratch, moment: Moment) -> bool
    requires { moment < DATE_END }
    ensures { (date : Date) × (unix_secs date ≡ moment / 1000) × Puts out.old out.new (date_text date) result }
{
    match HttpDate::from_unix_secs(moment / 1000) {
        Ok(date) => out.append(&date.to_bytes()),
        Err(_) => unreachable!(),
    }
}
