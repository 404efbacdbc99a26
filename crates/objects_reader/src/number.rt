// Numbers in values.
ghost use Rattle.std.specs.Prelude.{◌≡◌};
ghost use Rattle.objects_reader.specs.Places.{number_in};

use base::part;

// The number that the bytes of v are, the highest first; of more than eight bytes, the first eight.
pub fn number(v: &[u8]) -> usize
    ensures { result ≡ number_in v.now }
{
    let mut n: usize = 0;
    for b in part(v, 0, 8) {
        n = n * 256 + *b as usize;
    }
    n
}
