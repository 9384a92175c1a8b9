// What stands against a request: the refusal, 1 to 4, or 0; the number with a bit for each rule;
// how many stand; the first of them by document 01's number, 0 where none stands; and for each bit,
// where its limit stands, the permit time that has to leave the hour.
#[derive(Clone, Copy)]
pub struct Why {
    // A number and no Option: gate hands out this struct, and its promise names the number.
    pub refusal: u32,
    pub bits: u32,
    pub count: u32,
    pub first: u32,
    pub times: [u32; 8],
}
