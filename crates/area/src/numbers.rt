// One number of the work area.
ghost use Rattle.std.specs.Prelude.{◌≡◌, ◌<◌, length};
ghost use Rattle.area.specs.Numbers.{number_at, put_at};

// The number at a place of the work area.
pub fn get(work: &[i32], at: usize) -> usize
    requires { at < length work.now }
    ensures { (result ≡ number_at work.now at) × (result < 2147483648) }
{
    work[at].max(0) as usize
}

// Puts a number at a place of the work area.
pub fn put(work: &mut [i32], at: usize, value: usize)
    requires { at < length work.old }
    ensures { work.new ≡ put_at work.old at value }
{
    work[at] = (value % 2147483648) as i32;
}
