// Numbers for classes: a least point gets the next number, any other that of its least point.
ghost use Rattle.grid_chained.specs.WorkNumber.{Leading, Numbered};

// Writes the number of its class over each point's least point, and says how many classes there are.
pub fn number(labels: &mut [u32]) -> usize
    requires { Leading labels.old }
    ensures { Numbered labels.old labels.new result }
{
    let mut m = 0usize;
    for v in 0..labels.len() {
        let l = labels[v] as usize;
        if l == v {
            labels[v] = m as u32;
            m += 1;
            continue;
        }
        labels[v] = labels[l];
    }
    m
}
