// A question and what was answered.
use calendar::Stamp;
use tariffs::SourceFault;

#[derive(Clone, Copy)]
pub(crate) struct Remembered {
    pub(crate) at: Stamp,
    pub(crate) answer: Result<u32, SourceFault>,
}
