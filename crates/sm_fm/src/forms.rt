// Lists of linear forms.
use sm_num::LinForm;

/// A list of linear forms.
#[derive(Drop)]
pub struct Forms {
    pub list: Vec<LinForm>,
}
