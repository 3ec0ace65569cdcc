// The 16-bit fields of a file: two bytes, little-endian.
ghost use Rattle.std.specs.Prelude.{◌≡◌, ◌+◌, ◌<◌, length};
ghost use Rattle.std.proofs.lemmas.List.Edits.{sets};
ghost use Rattle.bnw.specs.File.{two_bytes};

// Writes v into the field at byte i.
pub fn put_field(v: u16, file: &mut [u8], i: usize)
    requires { i + 1 < length file.old }
    ensures { file.new ≡ sets file.old i (two_bytes v) }
{
    file[i..i + 2].copy_from_slice(&v.to_le_bytes());
}
