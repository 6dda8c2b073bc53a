//! Texts.

use crate::short::Short;
use pl_base::Text;
use pl_fields::RawSlice;

impl Short for Text {
    fn is_short(&self) -> bool {
        self.len() < 4_294_967_296
    }
}

impl Short for RawSlice<'_> {
    fn is_short(&self) -> bool {
        self.bytes.len() < 4_294_967_296
    }
}
