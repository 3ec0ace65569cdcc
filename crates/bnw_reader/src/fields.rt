// The 16-bit fields of a file: two bytes, little-endian.
ghost use Rattle.std.specs.Prelude.{◌≡◌, ◌+◌, ◌<◌, length};
ghost use Rattle.bnw.specs.Reading.{field};

// The field at byte i, unsigned.
pub fn field(file: &[u8], i: usize) -> u16
    requires { i + 1 < length file.now }
    ensures { result ≡ field file.now i }
{
    bnw::of_bytes(file[i], file[i + 1])
}
