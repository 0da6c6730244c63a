//! Lengths of time as squeue(1) prints them: "TIME" among its fields.

ghost use Rattle.std.specs.Prelude.{◌≡◌, ◌<◌, ◌≤◌, ◌+◌, ◌∷◌, ◌++◌, length, take, drop};
ghost use Rattle.std.specs.Fmt.{decimal};
ghost use Rattle.small_texts.specs.Digits.{two_digits};
ghost use Rattle.plain_data.specs.Elapsed.{elapsed_text};

use crate::seconds::FOREVER;
use itoa::Buffer;
use small_texts::digits::to_two_digits;

/// Writes the length of time, in seconds, to the front of `out`, as `m:ss`, `h:mm:ss` or `d-hh:mm:ss`, and answers how
/// many bytes that took. The others stay.
#[tactic(auto, unfolding(crate::specs::Elapsed::elapsed_text))]
pub fn print_elapsed(seconds: u64, out: &mut [u8; 32]) -> usize
    requires { seconds ≤ FOREVER }
    ensures text { take result out.new ≡ elapsed_text seconds }
    ensures len { result ≤ 32 }
    ensures rest { drop result out.new ≡ drop result out.old }
{
    let (days, hours, minutes) = (seconds / 86_400, seconds / 3600, seconds / 60);
    if days > 0 {
        let end = put_number(out, days);
        let end = put_part(out, end, b'-', hours % 24);
        let end = put_part(out, end, b':', minutes % 60);
        put_part(out, end, b':', seconds % 60)
    } else if hours > 0 {
        let end = put_number(out, hours);
        let end = put_part(out, end, b':', minutes % 60);
        put_part(out, end, b':', seconds % 60)
    } else {
        let end = put_number(out, minutes);
        put_part(out, end, b':', seconds % 60)
    }
}

// Writes the number to the front.
fn put_number(out: &mut [u8; 32], number: u64) -> usize
    requires { number < 100_000_000 }
    ensures written { take result out.new ≡ decimal number }
    ensures len { result ≤ 8 }
    ensures rest { drop result out.new ≡ drop result out.old }
{
    let mut buffer = Buffer::new();
    let text = buffer.format(number).as_bytes();
    out[..text.len()].copy_from_slice(text);
    text.len()
}

// Writes a mark and a number of two digits at `start`.
fn put_part(out: &mut [u8; 32], start: usize, mark: u8, number: u64) -> usize
    requires room { start ≤ 29 }
    requires two { number < 100 }
    ensures written { take result out.new ≡ take start out.old ++ mark ∷ two_digits number }
    ensures len { result ≡ start + 3 }
    ensures rest { drop result out.new ≡ drop result out.old }
{
    let [tens, units] = to_two_digits(number);
    out[start] = mark;
    out[start + 1] = tens;
    out[start + 2] = units;
    start + 3
}
