ghost use Rattle.std.specs.Prelude.{◌≡◌, ◌≤◌, ◌/◌, ◌↔◌, ℕ, List, IsTrue, IfOk, IfSome};
ghost use Rattle.std.specs.Prelude.{IfNone, length};
ghost use Rattle.hex.specs.Hex.{encode_lower};
ghost use Rattle.rpc_login.specs.Password.{PasswordFits, digest_of, stored_text};
ghost use Rattle.rpc_login.specs.Stored.{IsCut, PartsFit};

use plane_io::{Memory, Text};
use sha2::{Digest, Sha256};
use std::alloc::Global;

/// The most bytes of a salt.
pub const MOST_SALT: usize = 32;

/// How many hexadecimal digits a digest has.
const DIGEST_DIGITS: usize = 64;

/// The text that is stored for a password: `$s$SALT$DIGEST`.
///
/// `SALT` is the salt, and `DIGEST` the SHA-256 digest of the salt followed by the password, both
/// in lower-case hexadecimal digits. A salt has 1 to 32 bytes.
pub fn hash_password(alloc: Global, salt: &[u8], password: &[u8]) -> Result<Text, Memory>
    requires some { 1 ≤ length salt.now }
    requires few { length salt.now ≤ 32 }
    ensures text { IfOk result (λ text. text ≡ stored_text salt.now password.now) }
    ensures fits { IfOk result (λ text. PasswordFits text password.now) }
{
    let salt_digits = hex::encode(alloc, salt)?;
    let digest = digest(salt, password);
    let digest_digits = hex::encode(alloc, digest.as_slice())?;
    let mut text = Vec::new(alloc);
    text.extend_from_slice(b"$s$")?;
    text.extend_from_slice(salt_digits.as_bytes())?;
    text.extend_from_slice(b"$")?;
    text.extend_from_slice(digest_digits.as_bytes())?;
    Ok(Text::from_vec(text))
}

/// Whether a stored text is that of the password and some salt. It takes no memory.
///
/// Texts of other forms never fit: upper-case digits, rpcd's `$p$`, those of `crypt`. Nothing is
/// promised of how long the comparison takes.
pub fn password_fits(stored: &[u8], password: &[u8]) -> bool
    ensures { IsTrue result ↔ PasswordFits stored.now password.now }
{
    let Some((salt_digits, digest_digits)) = cut_stored(stored) else {
        return false;
    };
    let count = salt_digits.len() / 2;
    if count == 0 || count > MOST_SALT {
        return false;
    }
    let mut room = [0; MOST_SALT];
    parts_fit(salt_digits, digest_digits, password, &mut room[..count])
}

/// The digits of the salt and those of the digest, in a text of this form.
fn cut_stored(stored: &[u8]) -> Option<(&[u8], &[u8])>
    ensures some { IfSome result (λ parts. IsCut stored.now parts.0.now parts.1.now) }
    ensures none { IfNone result ((salt digest : List ℕ) → IsCut stored.now salt digest → ⊥) }
{
    let Some(parts) = stored.strip_prefix(b"$s$".as_slice()) else {
        return None;
    };
    if parts.len() <= DIGEST_DIGITS {
        return None;
    }
    let (front, digest) = parts.split_at(parts.len() - DIGEST_DIGITS);
    let Some((last, salt)) = front.split_last() else {
        return None;
    };
    if *last != b'$' {
        return None;
    }
    Some((salt, digest))
}

/// Whether the digits are those of a salt, which comes to stand in `salt`, and of its digest with
/// the password.
fn parts_fit(salt_digits: &[u8], digest_digits: &[u8], password: &[u8], salt: &mut [u8]) -> bool
    requires room { length salt.old ≡ length salt_digits.now / 2 }
    requires some { 1 ≤ length salt.old }
    requires few { length salt.old ≤ 32 }
    ensures { IsTrue result ↔ PartsFit salt_digits.now digest_digits.now password.now }
{
    let Ok(()) = hex::decode_to_slice(salt_digits, salt) else {
        return false;
    };
    let digest = digest(salt, password);
    is_text_of(salt_digits, salt) && is_text_of(digest_digits, digest.as_slice())
}

/// Whether the digits are the lower-case hexadecimal text of the bytes, of which there are at most
/// 32.
fn is_text_of(digits: &[u8], bytes: &[u8]) -> bool
    requires { length bytes.now ≤ 32 }
    ensures { IsTrue result ↔ (digits.now ≡ encode_lower bytes.now) }
{
    let mut room = [0; 2 * MOST_SALT];
    let text = &mut room[..2 * bytes.len()];
    let Ok(()) = hex::encode_to_slice(bytes, text) else {
        return false;
    };
    digits == &*text
}

/// The digest of a salt followed by a password.
fn digest(salt: &[u8], password: &[u8]) -> [u8; 32]
    ensures { result ≡ digest_of salt.now password.now }
{
    let mut hasher = Sha256::new();
    hasher.update(salt);
    hasher.update(password);
    hasher.finalize()
}
