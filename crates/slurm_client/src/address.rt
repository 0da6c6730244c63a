//! The word that names a server.

ghost use Rattle.std.specs.Prelude.{◌≡◌, ◌↔◌, ◌<◌, ℕ, List, IfSome, IsSomeAnd, length, position};
ghost use Rattle.slurm_client.specs.Address.{IsAddress, is_sign};

use small_texts::digits::parse_number;
use small_texts::name::is_name;

// Where the first `@` of a text stands.
fn sign_place(text: &[u8]) -> Option<usize>
    ensures value { result ≡ position is_sign text.now }
    ensures bound { IfSome result (λ at. at < length text.now) }
{
    text.iter().position(|b| *b == b'@')
}

/// The user and the port of the word `--ctld=USER@PORT`: USER is a name, and PORT a number from 1 to 65,535 in one to
/// five decimal digits, leading zeros among them (own). There are none of any other text.
pub fn read_address(word: &[u8]) -> Option<(&[u8], u16)>
    ensures { (user : List ℕ) (port : ℕ)
        → IsSomeAnd result (λ address. (address.0.now ≡ user) × (address.1 ≡ port)) ↔ IsAddress word.now user port }
{
    let address = word.strip_prefix(b"--ctld=")?;
    let at = sign_place(address)?;
    let user = address.split_at(at).0;
    if !is_name(user) {
        return None;
    }
    let port = parse_number(address.split_at(at + 1).1, 5, 65_535)?;
    if port == 0 {
        return None;
    }
    Some((user, port as u16))
}
