// The page store, of which a case lends as many numbers as it says.

// What each number holds between two cases.
pub const MARK: u32 = 2779096485;

// Whether there are numbers from..to that all hold MARK. Looking at each is faster than stopping at the first other.
fn is_left(store: &[u32], from: usize, to: usize) -> bool {
    let Some(left) = store.get(from..to) else {
        return false;
    };
    left.iter().fold(0, |other, x| other | (*x ^ MARK)) == 0
}

// Puts MARK into the first n numbers.
fn refill(store: &mut [u32], n: usize) {
    if n <= store.len() {
        store[..n].fill(MARK);
    }
}

// Ends a call that was lent size numbers and filled n of them: whether it left the others alone. Each holds MARK again.
pub fn settle(store: &mut [u32], n: usize, size: usize) -> bool {
    let left = is_left(store, n, size);
    refill(store, if left { n } else { size });
    left
}
