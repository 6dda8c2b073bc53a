//! Pairs, options and lists: what they hold is short.

use crate::short::Short;
use pl_base::List;

impl Short for () {
    fn is_short(&self) -> bool {
        true
    }
}

impl<A: Short, B: Short> Short for (A, B) {
    fn is_short(&self) -> bool {
        self.0.is_short() && self.1.is_short()
    }
}

impl<T: Short> Short for Option<T> {
    fn is_short(&self) -> bool {
        match self {
            None => true,
            Some(value) => value.is_short(),
        }
    }
}

impl<T: Short> Short for List<T> {
    fn is_short(&self) -> bool {
        for item in self.as_slice() {
            if !item.is_short() {
                return false;
            }
        }
        self.len() < 4_294_967_296
    }
}
