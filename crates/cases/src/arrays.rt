// What takes the slots that a call writes to, as copies.
#[derive(Drop)]
pub struct Arrays<'a> {
    pub small: &'a mut [u32],
    pub middle: &'a mut [u32],
    pub large: &'a mut [u32],
    pub inputs: &'a mut [u8],
    pub state: &'a mut [u8],
    pub values: &'a mut [u8],
}
