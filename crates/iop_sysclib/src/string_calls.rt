//! The calls that only read strings.

ghost use Rattle.std.specs.Prelude.{◌≡◌, ◌<◌, ◌^◌, length};
ghost use Rattle.iop_base.specs.Places.{IsRamSize};
ghost use Rattle.iop_printf.specs.Texts.{string_at};
ghost use Rattle.iop_sysclib.specs.StringCalls.{strlen, strchr, strrchr, strcmp, strncmp};

use crate::addresses::address_or_zero;
use crate::comparing::compared;
use crate::string_places::{first_in_string, last_in_string};
use iop_printf::string_at;
use iop_stubs::Guest;

/// Finds the string at an address.
pub(crate) fn string(guest: &Guest, at: u32) -> &[u8]
    ensures text { result.now ≡ string_at guest.now.ram at }
    ensures short { length result.now < 2 ^ 24 }
    ensures sized { IsRamSize (length guest.now.ram) }
{
    let ram = guest.ram();
    string_at(ram, at, ram.size())
}

/// Answers the length of a string.
#[tactic(auto, unfolding(crate::specs::StringCalls::strlen))]
pub(crate) fn strlen(guest: &Guest, at: u32) -> u32
    ensures { result ≡ strlen guest.now.ram at }
{
    string(guest, at).len() as u32
}

/// Compares two strings, and answers -1, 0 or 1.
#[tactic(auto, unfolding(crate::specs::StringCalls::strcmp))]
pub(crate) fn strcmp(guest: &Guest, a: u32, b: u32) -> u32
    ensures { result ≡ strcmp guest.now.ram a b }
{
    compared(string(guest, a), string(guest, b))
}

/// Compares at most so many bytes of two strings, and answers -1, 0 or 1.
#[tactic(auto, unfolding(crate::specs::StringCalls::strncmp))]
pub(crate) fn strncmp(guest: &Guest, a: u32, b: u32, most: u32) -> u32
    ensures { result ≡ strncmp guest.now.ram a b most }
{
    let ram = guest.ram();
    compared(string_at(ram, a, most), string_at(ram, b, most))
}

/// Finds the first byte of a string that is the low byte of a word, and answers its address, or 0.
/// The string's end counts as a zero byte.
#[tactic(auto, unfolding(crate::specs::StringCalls::strchr))]
pub(crate) fn strchr(guest: &Guest, at: u32, wanted: u32) -> u32
    ensures { result ≡ strchr guest.now.ram at wanted }
{
    let place = first_in_string(string(guest, at), wanted);
    address_or_zero(at, place)
}

/// Finds the last byte of a string as `strchr` finds the first.
#[tactic(auto, unfolding(crate::specs::StringCalls::strrchr))]
pub(crate) fn strrchr(guest: &Guest, at: u32, wanted: u32) -> u32
    ensures { result ≡ strrchr guest.now.ram at wanted }
{
    let place = last_in_string(string(guest, at), wanted);
    address_or_zero(at, place)
}
