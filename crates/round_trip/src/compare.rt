// Where two files first differ.
ghost use Rattle.round_trip.specs.Compare.{Common, Differ};

// How many bytes from the front on are the same in both.
fn common(a: &[u8], b: &[u8]) -> usize
    ensures { Common result a.now b.now }
{
    let both = a.len().min(b.len());
    for i in 0..both {
        if a[i] != b[i] {
            return i;
        }
    }
    both
}

pub fn first_difference(a: &[u8], b: &[u8]) -> Option<usize>
    ensures { Differ result a.now b.now }
{
    let same = common(a, b);
    if same < a.len().max(b.len()) {
        Some(same)
    } else {
        None
    }
}
