//! What one side knows of what is published.

use crate::past::Past;
use crate::shown::Shown;

/// The series whose frames one side sees, told by the pointer that was shown first in it, and the frames that this side
/// has seen. No value of it is made: contracts and proofs alone speak of it, and see the array as a list of any length.
pub struct Known {
    pub series: Option<Shown>,
    pub seen: [Past; 0],
}
