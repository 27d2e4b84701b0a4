//! Written by tools/collations --pairs, from what a server of MySQL 9.7.4-2 answers: 1 where it calls two texts equal.

#[rattlefmt::skip]
pub(crate) const NEAR_PAIRS: &str =
    "ascii_general_ci 10 1020202020 1\nascii_general_ci 1e7e 1e7e 1\nascii_general_ci 73786135187c 7378616a35187c 0\nascii_general_ci   1\n\
    ascii_general_ci 636e0072443a 636e0072443a 1\nascii_general_ci 1a510705 1a5107052020 1\nascii_general_ci   1\nascii_general_ci 0261376c07 61376c2d07 0\n\
    ascii_general_ci 38707e3b 38507e3b20 1\nascii_general_ci 3b38 3b3820 1\nascii_general_ci 754a056a192f 754a054a192f 1\nascii_general_ci 4b1e556c30 4b121e556c30 0\n\
    ascii_general_ci 487f 487f 1\nascii_general_ci 64087a3e676a 64085a3e67 0\nascii_general_ci 2c5d5f1670 2c5d5f167020 1\nascii_general_ci 1b29645e7d 1b29645e7d 1\n\
    ascii_general_ci 07780b4e64 07580b4e6420 1\nascii_general_ci 2b2b3a0333 2b7e2b3a0333 0\nascii_general_ci 3b67585a 3b6758 0\nascii_general_ci 440162 61440162 0\n\
    ascii_general_ci 21346d0e7b5d 346d0e7b715d 0\nascii_general_ci 33697c5b 33697c5b 1\nascii_general_ci 580054 58005420 1\nascii_general_ci 073a2d 073a 0\n\
    ascii_general_ci 2e174108 2e17412020 0\nascii_general_ci 121504730347 121504730347 1\nascii_general_ci 44 6420 1\nascii_general_ci   1\n\
    ascii_general_ci 2f584a112a28 2f584a07112a28 0\nascii_general_ci 2b45 2b45 1\nascii_general_ci 4b74527f79 4b74527f79 1\nascii_general_ci  2020 1\n\
    ascii_general_ci  20 1\nascii_general_ci 6257 572020 0\nascii_general_ci 30421b 300642 0\nascii_general_ci 356e 356e 1\n\
    ascii_general_ci 053904652509 05395f0465254b09 0\nascii_general_ci 29726d3873 29726d38731f2020 0\nascii_general_ci 07 07 1\nascii_general_ci 526d0f 526d0f 1\n\
    ascii_general_ci 4c20360c4e 4c20360c4e202020 1\nascii_general_ci   1\nascii_general_ci 134f4c286a40 134f4c286a 0\nascii_general_ci 02 02 1\n\
    ascii_general_ci 0937752b 093763752b20 0\nascii_general_ci 096033581934 096033581934202020 1\nascii_general_ci 6e317e1a 6e31687e 0\nascii_general_ci 634b7f0453 63024b7f0453 0\n\
    ascii_general_ci 66480428 664804282020 1\nascii_general_ci 53 53 1\nascii_general_ci 22566d364418 22566d364418 1\nascii_general_ci 61587c3c100a 61587c3c100a20 1\n\
    ascii_general_ci  20 1\nascii_general_ci 2b 2b20 1\nascii_general_ci 36 36 1\nascii_general_ci 5541 552020 0\n\
    ascii_general_ci 5657  0\nascii_general_ci  13 0\nascii_general_ci 3c7d 3c2b7d 0\nascii_general_ci 1a 1a 1\n\
    ascii_general_ci 0a68 0a20 0\nascii_general_ci  20 1\nascii_general_ci 252057 25672057 0\nascii_general_ci  2020 1\n\
    ascii_general_ci 60133914 60133914 1\nascii_general_ci 5d4b 5d4b 1\nascii_general_ci 1d75461b 1d75461b20 1\nascii_general_ci 0b4b03031769 0b4b030369 0\n\
    ascii_general_ci   1\nascii_general_ci 0a303d6b291d 0a303d6b291d 1\nascii_general_ci 2a3d28 2a3d2820 1\nascii_general_ci 1a6f604b40 1a6f604b40 1\n\
    ascii_general_ci 7a50193551 3a7a70193551 0\nascii_general_ci  20 1\nascii_general_ci   1\nascii_general_ci   1\n\
    ascii_general_ci 4b5173645066 4b5173645066 1\nascii_general_ci  202020 1\nascii_general_ci   1\nascii_general_ci 741c 741c2020 1\n\
    ascii_general_ci 3778 78 0\nascii_general_ci 5b422e354e 5b422e354e 1\nascii_general_ci 3f 3f20 1\nascii_general_ci 1447 1467 1\n\
    ascii_general_ci  36 0\nascii_general_ci 7217563a634e 7217563a634e 1\nascii_general_ci   1\nascii_general_ci 2f51 2f51 1\n\
    ascii_general_ci 4d3e5519173e 4d3e5519173e 1\nascii_general_ci 05 052020 1\nascii_general_ci 3e6612441213 3e6612441213 1\nascii_general_ci  20 1\n\
    ascii_general_ci 024a5b7e78 024a5b7e78 1\nascii_general_ci 271953132c2d 27611953132c2d 0\nascii_general_ci 2624514e1b4b 267624514e1b4b 0\nascii_general_ci 34 340921 0\n\
    ascii_general_ci 08 08 1\nascii_general_ci 50342d4c6e28 50342d4c6e286e 0\nascii_general_ci   1\nascii_general_ci 3f4010726e 3f4010726e 1\n\
    latin1_swedish_ci   1\nlatin1_swedish_ci 428e62 42b18e62 0\nlatin1_swedish_ci e5c7a88985 e5c7a88985 1\nlatin1_swedish_ci 7c7d1e59b3 7c7d1e59b3 1\n\
    latin1_swedish_ci 1fb4d3 1fb4 0\nlatin1_swedish_ci 66d92388 66d92388b9 0\nlatin1_swedish_ci 25805a314d 25805a314d 1\nlatin1_swedish_ci   1\n\
    latin1_swedish_ci db db 1\nlatin1_swedish_ci 161b2ef0bd32 161bf0bd32 0\nlatin1_swedish_ci 1440 1440 1\nlatin1_swedish_ci 10e241ca 10e261ca 1\n\
    latin1_swedish_ci e40c8a2e80a6 e40c8a2e80a6 1\nlatin1_swedish_ci  2020 1\nlatin1_swedish_ci 11c4 11c4 1\nlatin1_swedish_ci  20 1\n\
    latin1_swedish_ci 85a04285c2 5985a085c2 0\nlatin1_swedish_ci 3b9b30d97d69 3b9b30d97d69 1\nlatin1_swedish_ci adc8 adc8 1\nlatin1_swedish_ci f63542e5 f6358042e5 0\n\
    latin1_swedish_ci 0f955066 0f9570 0\nlatin1_swedish_ci c7a6 c7a6bf 0\nlatin1_swedish_ci   1\nlatin1_swedish_ci b04021 b0409d 0\n\
    latin1_swedish_ci   1\nlatin1_swedish_ci a0d5 a0d5 1\nlatin1_swedish_ci a3b4 b4 0\nlatin1_swedish_ci a604 a6 0\n\
    latin1_swedish_ci 3e4ca2a6 3e4ca2a6 1\nlatin1_swedish_ci a723e78ff5e8 a723e78ff5e82020 1\nlatin1_swedish_ci c228 c228 1\nlatin1_swedish_ci 1c4418fb 1c640418fb 0\n\
    latin1_swedish_ci 807dadb9 807dadddb920 0\nlatin1_swedish_ci bdce9dedae55 bdce9dedae5520202020 1\nlatin1_swedish_ci  3200 0\nlatin1_swedish_ci 80 80 1\n\
    latin1_swedish_ci 7144395ed2 7144395ed2 1\nlatin1_swedish_ci 1932883668 1932883648 1\nlatin1_swedish_ci 2228 22 0\nlatin1_swedish_ci 256f58dd0bbc 25b7146f58dd0bbc 0\n\
    latin1_swedish_ci f9917066fc78 f9917066defc782020 0\nlatin1_swedish_ci e7bb60 e7bb60 1\nlatin1_swedish_ci f62583d06704 f62583d06704 1\nlatin1_swedish_ci c2f927ced9 c2f927ce 0\n\
    latin1_swedish_ci   1\nlatin1_swedish_ci ea03 f5ea032020 0\nlatin1_swedish_ci 99 99 1\nlatin1_swedish_ci 023d9aa190 023d9aa1 0\n\
    latin1_swedish_ci d2d19de7 d27fd19de7 0\nlatin1_swedish_ci 43e3 43 0\nlatin1_swedish_ci 47538104 4753812020 0\nlatin1_swedish_ci 12bcd7 12bcd720 1\n\
    latin1_swedish_ci 90092e 902e 0\nlatin1_swedish_ci   1\nlatin1_swedish_ci 02c489ed8bbe 02c4890ded8bbe 0\nlatin1_swedish_ci f6acc6e93b acc6e93b2020 0\n\
    latin1_swedish_ci b54ad4 b54ad4 1\nlatin1_swedish_ci 09 09 1\nlatin1_swedish_ci 85 852020 1\nlatin1_swedish_ci 4193 417f 0\n\
    latin1_swedish_ci 8493d7 84d7 0\nlatin1_swedish_ci 8cddabf86e 8cddabf8 0\nlatin1_swedish_ci fbcdd92e20 fbcdd92e20 1\nlatin1_swedish_ci 69 6f 0\n\
    latin1_swedish_ci 75 6175 0\nlatin1_swedish_ci 0d34814ff5 0d34814f7ef520 0\nlatin1_swedish_ci 32cc5f012dda 32f5cc5f012dc6da 0\nlatin1_swedish_ci 1a6fd8b1 1a6fd8b1 1\n\
    latin1_swedish_ci  0a2020 0\nlatin1_swedish_ci 34d63c878e 34d63c 0\nlatin1_swedish_ci f5 f520202020 1\nlatin1_swedish_ci 186d2cc73fe5 186d2cc73fe5 1\n\
    latin1_swedish_ci fec9 fee9 1\nlatin1_swedish_ci   1\nlatin1_swedish_ci f5364cc5 f5364ce5 1\nlatin1_swedish_ci 675583d5 675583d5 1\n\
    latin1_swedish_ci 93fc6dacf8 93fcacb8f8 0\nlatin1_swedish_ci  2020 1\nlatin1_swedish_ci  20 1\nlatin1_swedish_ci b1881ce19933 b1881ce19933 1\n\
    latin1_swedish_ci 8c 8c 1\nlatin1_swedish_ci 7ed2 d2 0\nlatin1_swedish_ci 42 42 1\nlatin1_swedish_ci 63d0  0\n\
    latin1_swedish_ci 1d4cd38a 1d4cd38a20 1\nlatin1_swedish_ci f59c f59c 1\nlatin1_swedish_ci fb6d cf6d 0\nlatin1_swedish_ci bcf07b bcf0 0\n\
    latin1_swedish_ci 5a5c  0\nlatin1_swedish_ci e64c1da645 e66c1da645 1\nlatin1_swedish_ci 6da1fcf5a8 6da1fcf5a8 1\nlatin1_swedish_ci  20 1\n\
    latin1_swedish_ci 47 47 1\nlatin1_swedish_ci 83732d1958 83732d1958 1\nlatin1_swedish_ci 3b73669dd8 3b739d94d8 0\nlatin1_swedish_ci 020a 020abe 0\n\
    latin1_swedish_ci 9c702b728fae a19c2b728fae 0\nlatin1_swedish_ci c20b de0b 0\nlatin1_swedish_ci   1\nlatin1_swedish_ci b147 b1673d 0\n\
    latin1_general_ci 67c1f6768913 67c1f6da7689132020 0\nlatin1_general_ci 5577d28cd7 5577d28cd7 1\nlatin1_general_ci 8bfc32 fc322020 0\nlatin1_general_ci 425f08e816 425f08e8162020 1\n\
    latin1_general_ci 6dc9ac 6dc9ac 1\nlatin1_general_ci 30 30bd 0\nlatin1_general_ci   1\nlatin1_general_ci 15d8e26058 15f8e26058 1\n\
    latin1_general_ci 61c5b864 61b86420 0\nlatin1_general_ci b8 b8 1\nlatin1_general_ci 21ae1aea16 21ae1aea16 1\nlatin1_general_ci 5a4b92f01621 5a4b92f01621 1\n\
    latin1_general_ci ca2fcc9ac989 ca2f9ac989 0\nlatin1_general_ci f019 f019 1\nlatin1_general_ci f408da9b f408da9b 1\nlatin1_general_ci a24c8e21 a24c8e21 1\n\
    latin1_general_ci b8d4c80c3a12 b8f4c80c3a12 1\nlatin1_general_ci 0733aaac 33aaac 0\nlatin1_general_ci 11bd 115fbd17 0\nlatin1_general_ci 25f82ae4 25d82ae4 1\n\
    latin1_general_ci 0152 015e72 0\nlatin1_general_ci b86d b86d 1\nlatin1_general_ci 4b 7e6b 0\nlatin1_general_ci 37cea2d7 37ce76a2 0\n\
    latin1_general_ci b8ae85bc1320 b8ae85bc136420 0\nlatin1_general_ci 7e87cb912a26 7e87cb912a26 1\nlatin1_general_ci 5788d32a40 5788d32a40 1\nlatin1_general_ci 8678 8678 1\n\
    latin1_general_ci 32  0\nlatin1_general_ci f518 f518 1\nlatin1_general_ci 9a6826a1ad 9a6826a1ad 1\nlatin1_general_ci 4412 4412 1\n\
    latin1_general_ci ba130e ba130e2020 1\nlatin1_general_ci d553 d553 1\nlatin1_general_ci 14d95e65 14d9658d 0\nlatin1_general_ci 3a 3a 1\n\
    latin1_general_ci 423e88ea 423e88ea 1\nlatin1_general_ci 1c 1c 1\nlatin1_general_ci e9ab e9ab 1\nlatin1_general_ci b5700407 b5700407 1\n\
    latin1_general_ci 105481 105481 1\nlatin1_general_ci 1404752b 1404752b 1\nlatin1_general_ci 5811666b 58116b 0\nlatin1_general_ci 937cfb 937cfb 1\n\
    latin1_general_ci bea6c825 a6c825 0\nlatin1_general_ci 5c e1 0\nlatin1_general_ci 98 2020 0\nlatin1_general_ci daf2ba0b daf2ba0b1a 0\n\
    latin1_general_ci 0a35dd 0a35fd 1\nlatin1_general_ci afad25d763fd afad25d763fd 1\nlatin1_general_ci f4e6f154899a d4e6f154899a 1\nlatin1_general_ci ca84829e ca84829e 1\n\
    latin1_general_ci  208620 0\nlatin1_general_ci 17eaeab6 17eaeab6 1\nlatin1_general_ci e3 e3 1\nlatin1_general_ci f3 d3 1\n\
    latin1_general_ci 4ac4 4ac420 1\nlatin1_general_ci df1b38b60482 df1b38b60482 1\nlatin1_general_ci 1b9cc107a6ad 1b9cc107a6ad 1\nlatin1_general_ci 196a 196a 1\n\
    latin1_general_ci 29a83d2141 29a83d41 0\nlatin1_general_ci 96d1ae770d5d 96d1ae770d5d2020 1\nlatin1_general_ci bb9a96c1d7ec bb9ad7ec 0\nlatin1_general_ci 2565d076157b 2565d076157b2020 1\n\
    latin1_general_ci 727ccac26b 727ccac220 0\nlatin1_general_ci 4d99b800 4d7e99b800 0\nlatin1_general_ci 9de3fe574a 9de3fe574a 1\nlatin1_general_ci  d1 0\n\
    latin1_general_ci dfaf dfaf20202020 1\nlatin1_general_ci faa239958ddb faa239958ddb 1\nlatin1_general_ci  bc20 0\nlatin1_general_ci 9f2cfb3a7087 9f2cfb3a7087e2 0\n\
    latin1_general_ci be761b be1b 0\nlatin1_general_ci   1\nlatin1_general_ci 53429518 73429518 1\nlatin1_general_ci  207720 0\n\
    latin1_general_ci 01 01 1\nlatin1_general_ci 1fd80a211c 1fd80aa1211c 0\nlatin1_general_ci  2020 1\nlatin1_general_ci   1\n\
    latin1_general_ci adaa0904 adaa0904 1\nlatin1_general_ci 6cf06688 6cf066882020 1\nlatin1_general_ci 8077 8057 1\nlatin1_general_ci 6b 6b 1\n\
    latin1_general_ci 1e7ae7 1e 0\nlatin1_general_ci  2020 1\nlatin1_general_ci a7d0 a7d020 1\nlatin1_general_ci   1\n\
    latin1_general_ci   1\nlatin1_general_ci 5e2f5e6f c65e2f5e6f2020 0\nlatin1_general_ci 5a 5a 1\nlatin1_general_ci 321e 32631e 0\n\
    latin1_general_ci a04a20e24c76 a04a20e26c762020 1\nlatin1_general_ci   1\nlatin1_general_ci 92b01d2de2 2192b02de2 0\nlatin1_general_ci 74 742020 1\n\
    latin1_general_ci 5e3d1d671b 5e3d1d671b202020 1\nlatin1_general_ci 3b2c709281 3b2c709281 1\nlatin1_general_ci d87f1080 7f10802020 0\nlatin1_general_ci 63a6b3b6e8c3 63a6b3b6e8c3 1\n\
    latin1_general_cs 63 632020 1\nlatin1_general_cs 6e 6e 1\nlatin1_general_cs 4f3434 4f 0\nlatin1_general_cs 1ae84d 1ae84d 1\n\
    latin1_general_cs a48f a48f20 1\nlatin1_general_cs 07c6f9 07c6f9 1\nlatin1_general_cs e49a9bc6a0 e49a9bc6a6a02020 0\nlatin1_general_cs 945933fa5ce4 945933fa5ce4 1\n\
    latin1_general_cs ea ea312020 0\nlatin1_general_cs   1\nlatin1_general_cs 3fa3a1fd 3fd0a3a1fd 0\nlatin1_general_cs aea3eca5f8 aea3ecf5f8 0\n\
    latin1_general_cs c96f557b66 c96f557bc06620 0\nlatin1_general_cs 7d1aa41fa8d6 7d1aa41fa8d6 1\nlatin1_general_cs  20 1\nlatin1_general_cs b8b9 b8b9 1\n\
    latin1_general_cs d16b9372 25f16b9372 0\nlatin1_general_cs cbc4 cbc4 1\nlatin1_general_cs 5904c7b371 5904f0e7b371 0\nlatin1_general_cs 21 21 1\n\
    latin1_general_cs a3c4689631de a3e46896de 0\nlatin1_general_cs   1\nlatin1_general_cs b32fd04e395b b32ff04e39 0\nlatin1_general_cs ae49c0dfa68d ae49e0dff6a68d 0\n\
    latin1_general_cs 63  0\nlatin1_general_cs 54 54 1\nlatin1_general_cs 524b3de2 524b3de2 1\nlatin1_general_cs 42dc44aa 42dc44aa 1\n\
    latin1_general_cs a2460ab7 a2460a 0\nlatin1_general_cs 597378fefa11 597378fefa11 1\nlatin1_general_cs 2d44f0496b 2d44f0496b 1\nlatin1_general_cs 468f 468f 1\n\
    latin1_general_cs b221c4f30f b221c4f30f 1\nlatin1_general_cs ec647b69 ec647b69 1\nlatin1_general_cs 029b158860 029b15886020 1\nlatin1_general_cs  20202020 1\n\
    latin1_general_cs 3638cca935e4 3638cca935e4 1\nlatin1_general_cs f78f49dcbe f78f49dcbe 1\nlatin1_general_cs b2c4d2dfbc b2c4d2dfbc 1\nlatin1_general_cs 6964214a 6964214a 1\n\
    latin1_general_cs 7a 7a 1\nlatin1_general_cs  202020 1\nlatin1_general_cs c9 2020 0\nlatin1_general_cs e1301b e1301b 1\n\
    latin1_general_cs 03 03 1\nlatin1_general_cs  0e 0\nlatin1_general_cs 8ed443 8ed443 1\nlatin1_general_cs 78bfd4af18e8 78bfd4a1af18e820 0\n\
    latin1_general_cs ba ba7e 0\nlatin1_general_cs 1eb23c7d 3c7d 0\nlatin1_general_cs 3fdf4c09bb 3fe1df4c0974bb 0\nlatin1_general_cs 4d 724d 0\n\
    latin1_general_cs 0cf1 0cf1 1\nlatin1_general_cs 0df722dc2f 0df722dc2f 1\nlatin1_general_cs 3141c9 3141c9 1\nlatin1_general_cs d17bc2f4a2 d17bc2f4a2 1\n\
    latin1_general_cs 3b226b 3b226b 1\nlatin1_general_cs bd3531b5 bd3531b5 1\nlatin1_general_cs  2020 1\nlatin1_general_cs 38 382020 1\n\
    latin1_general_cs 2c01dd782e 01dd782e 0\nlatin1_general_cs f91f f91f20 1\nlatin1_general_cs db98c814 db1ac814 0\nlatin1_general_cs 0e8df4e070 0e8df4e070 1\n\
    latin1_general_cs a4f4 a4d1f4 0\nlatin1_general_cs 1c8958 1c8958112020 0\nlatin1_general_cs e0e9975da4 e0c96f975da4 0\nlatin1_general_cs cbd3cbf4 cbd3cbd488 0\n\
    latin1_general_cs 709c08204bfc 709c08204bfc 1\nlatin1_general_cs 3bb8849e9b46 3b6bb8849e46 0\nlatin1_general_cs  ce 0\nlatin1_general_cs 46e913e4 e913e4 0\n\
    latin1_general_cs a6be40 a6be40 1\nlatin1_general_cs 07678921ec 07678921ec 1\nlatin1_general_cs 0688 062020 0\nlatin1_general_cs 0bcd3932a4 0bcd39cf32 0\n\
    latin1_general_cs e52effaf e52effaf 1\nlatin1_general_cs 1660561c 1660561c 1\nlatin1_general_cs 3b153c9c 3b153c9c2020 1\nlatin1_general_cs 66524c746f2d 66524c6f2d 0\n\
    latin1_general_cs b4de8844 b4de88442020 1\nlatin1_general_cs 7f23 7f 0\nlatin1_general_cs 871d0bdd90f3 871d0bdd5c90f3 0\nlatin1_general_cs df225e df220d5e20 0\n\
    latin1_general_cs 11  0\nlatin1_general_cs dbd4b5b54b dbd4abb5b54b 0\nlatin1_general_cs 73  0\nlatin1_general_cs 1e 1e20 1\n\
    latin1_general_cs 22e4 22e420 1\nlatin1_general_cs 6f70 6f922b70 0\nlatin1_general_cs 4fc3 4f 0\nlatin1_general_cs   1\n\
    latin1_general_cs 00f19f f19f 0\nlatin1_general_cs 956a 956a2020 1\nlatin1_general_cs 43c211c3ea0c 431ec211fac3ea0c 0\nlatin1_general_cs 76 76 1\n\
    latin1_general_cs fc3297df66aa dc3297df66aa 0\nlatin1_general_cs  2020 1\nlatin1_general_cs 7c 7c 1\nlatin1_general_cs 3b5bfe 3b5b 0\n\
    utf8mb4_general_ci c3a7c5a23b17c783c88c c3a7c5a33b17c783c88c2020 1\nutf8mb4_general_ci c693 c693 1\nutf8mb4_general_ci c2b7 c2b7 1\nutf8mb4_general_ci 53 53 1\n\
    utf8mb4_general_ci 29c2b2c587 29c2b2 0\nutf8mb4_general_ci   1\nutf8mb4_general_ci c8a7c89bc2a6 c89b 0\nutf8mb4_general_ci  2020 1\n\
    utf8mb4_general_ci c6b0c3a3c487c893c780c381 c3a3c893c780c381 0\nutf8mb4_general_ci 29c682c6a4c698c88bc6b4 29c682c6a4c59ec698c88bc6b4 0\nutf8mb4_general_ci c785c599 c785c599 1\nutf8mb4_general_ci 1850c7a3c6ad 1850c7a3c6ad 1\n\
    utf8mb4_general_ci c6b8 c6b4c6b9 0\nutf8mb4_general_ci c8ac 04c8ad 0\nutf8mb4_general_ci c887c883c2b0c491 c887c883c2b0c491 1\nutf8mb4_general_ci c7acc4a4c5a3 c7acc4a4c5a22020 1\n\
    utf8mb4_general_ci c793c697c8b4c681c4a5 c793c697c8b4c681c6bfc4a5 0\nutf8mb4_general_ci c5af c5af 1\nutf8mb4_general_ci c8adc89fc3a6c48f c8adc89f6cc3a6c48e 0\nutf8mb4_general_ci  20 1\n\
    utf8mb4_general_ci 4ac48dc68fc2a4c48ec482 4ac48dc68f45c2a4c48ec482 0\nutf8mb4_general_ci 10c2a3c7af 10c7af 0\nutf8mb4_general_ci  20 1\nutf8mb4_general_ci c29b c29b20 1\n\
    utf8mb4_general_ci   1\nutf8mb4_general_ci 3ac2b045 3ac2b04520 1\nutf8mb4_general_ci  20 1\nutf8mb4_general_ci c8b2c79f19 c8b3c79f19 1\n\
    utf8mb4_general_ci  20 1\nutf8mb4_general_ci 34c89d 34c89c 1\nutf8mb4_general_ci c394c5acc780 c394c5acc780 1\nutf8mb4_general_ci  2020 1\n\
    utf8mb4_general_ci c586c687 c68720 0\nutf8mb4_general_ci c68ec4a954c3aac783 c79dc4a954c3aac783 1\nutf8mb4_general_ci c5a5c6b5c6b9c6be c5a5c6b5c6b9c6be 1\nutf8mb4_general_ci c490c2bfc29a36 c491c2bfc29a36 1\n\
    utf8mb4_general_ci c5a8c681 c5a8c681 1\nutf8mb4_general_ci   1\nutf8mb4_general_ci c585c98dc2b5c29475 c585c98cc2b5c29475 0\nutf8mb4_general_ci c391c7a8c3aec5af c596c391c7a8c3ae 0\n\
    utf8mb4_general_ci c89cc2a5c390c4b2 c89cc2a5c390c4b2 1\nutf8mb4_general_ci c28d c28dc2ac 0\nutf8mb4_general_ci c699c6b3c7b4c5a722 c699c6b3c7b4c5a6 0\nutf8mb4_general_ci 4d18c5b8c3be 4d2718c5b8c3be20 0\n\
    utf8mb4_general_ci c39a c39a20 1\nutf8mb4_general_ci c786c88ac497 c786c88ac497 1\nutf8mb4_general_ci c59ac7adc59c c59ac7adc59c20 1\nutf8mb4_general_ci  20 1\n\
    utf8mb4_general_ci 38c28ec8b9c7a1 38c28ec8b9c7a1 1\nutf8mb4_general_ci 5d 5dc6ad20 0\nutf8mb4_general_ci  20 1\nutf8mb4_general_ci  2020 1\n\
    utf8mb4_general_ci  20 1\nutf8mb4_general_ci c49d c49d20 1\nutf8mb4_general_ci c797  0\nutf8mb4_general_ci c8aac88bc495 c8aac88bc495 1\n\
    utf8mb4_general_ci c48ec8bac6896bc694 c48ec8bac689c9844bc694 0\nutf8mb4_general_ci c3b748c580 c3b748c580 1\nutf8mb4_general_ci 1b 1b 1\nutf8mb4_general_ci c68339c4a9c5a111 c68339c4a9c5a111 1\n\
    utf8mb4_general_ci c781c584f0a080800ac8a1 c584f0a080800a 0\nutf8mb4_general_ci c69134 c691342020 1\nutf8mb4_general_ci c78963c6b1c69f c78963c6b1c69f202020 1\nutf8mb4_general_ci 7ec983110bc8ba 7ec983110bc8ba 1\n\
    utf8mb4_general_ci c6a2c5a4c2b3c69e c6a2c5a4c2b3c69e 1\nutf8mb4_general_ci 29c292c4a4c890c6a4 29c292c4a4c890c6a4 1\nutf8mb4_general_ci c2aac987c7a0c4acefbbbfc486 c2aac987c7a0c4acefbbbfc486 1\nutf8mb4_general_ci 23c690c8a8c6a5c295 23c690c8a8c6a4c295 1\n\
    utf8mb4_general_ci c2aec790 c2aec790 1\nutf8mb4_general_ci c98fc8b9c280 c98fc8b9c28020 1\nutf8mb4_general_ci 50c692c48ac691 50c691c48bc691 1\nutf8mb4_general_ci 22c4a9c2a3 22c2a36b 0\n\
    utf8mb4_general_ci c493c68dc4987fc48509 c493c68dc4987fc48509 1\nutf8mb4_general_ci  20 1\nutf8mb4_general_ci 6dc79fc29ac79dc3b6c3b3 6dc79fc29ac79dc3b6c3b3 1\nutf8mb4_general_ci  2020 1\n\
    utf8mb4_general_ci 51 51 1\nutf8mb4_general_ci   1\nutf8mb4_general_ci 6226cc80742cc482 6226cc80742cc48220202020 1\nutf8mb4_general_ci c296c5a374 c296c5a254 1\n\
    utf8mb4_general_ci  20 1\nutf8mb4_general_ci c68ec3a4c2a3c8a5c98bc7b5 c48ac68ec3a4c2a3c8a5c98bc7b5 0\nutf8mb4_general_ci c2afc5a8c697c88cc982c2af c2afc5a8c697c88cc982c2af 1\nutf8mb4_general_ci c89e48 c89e482020 1\n\
    utf8mb4_general_ci 320fc98dc4b165 320fc98dc4b165 1\nutf8mb4_general_ci 590030 5900c7bb30 0\nutf8mb4_general_ci c49fc8b1c4b8c484c795 c49fc8b1c4b8c484c7952020 1\nutf8mb4_general_ci 78c3a4c4b9 78c3a42020 0\n\
    utf8mb4_general_ci c280c889c88118c5b6 c2a4c280c889c88118c5b6 0\nutf8mb4_general_ci c78960c6b9c29fc49974 c78960c6b8c29fc499742020 1\nutf8mb4_general_ci c482c398 c482c398 1\nutf8mb4_general_ci c290c8bb c290c8bb20 1\n\
    utf8mb4_general_ci 07 07 1\nutf8mb4_general_ci c7ae c7ae 1\nutf8mb4_general_ci c282c6a2 c28220 0\nutf8mb4_general_ci c59fc6b5c78272c480 c59ec6b5c78272c48020 1\n\
    utf8mb4_general_ci  20 1\nutf8mb4_general_ci c4aec88fc586c38b c4aec498c586c38b 0\nutf8mb4_general_ci c3aa c5bc 0\nutf8mb4_general_ci c3b7c681c5a3c48601c7b7 c3b7c681c5a3c48601c7b7 1\n\
    utf8mb4_unicode_ci c297c282 c297c282c2b8 0\nutf8mb4_unicode_ci  20c29020 1\nutf8mb4_unicode_ci c2a0c6acc492c2854a c2a0c6acc493c2854a 1\nutf8mb4_unicode_ci c2a4 c2a4 1\n\
    utf8mb4_unicode_ci c6aac39dc692c8aa c6aac39dc69220 0\nutf8mb4_unicode_ci c7b5c2b141c7bec3b8c390 c7b5c2b141c7bec3b0 0\nutf8mb4_unicode_ci   1\nutf8mb4_unicode_ci c29bc3bac381c296c8b1 c29bc381c296c8b1 0\n\
    utf8mb4_unicode_ci 42c98b 42c98b 1\nutf8mb4_unicode_ci 50c5ac 50c5ac 1\nutf8mb4_unicode_ci c49dc2b7c984c7a0 c49dc984c7a02020 0\nutf8mb4_unicode_ci c8bac98dc8bd c8bac98dc8bd 1\n\
    utf8mb4_unicode_ci c281 c281 1\nutf8mb4_unicode_ci 78c6bdc6b6c5b8 78c6bdc6b6c5b819c29f 1\nutf8mb4_unicode_ci c786 c786 1\nutf8mb4_unicode_ci c8bfc691c594c984c2bb c8bfc691ca89c2bb 0\n\
    utf8mb4_unicode_ci  c484 0\nutf8mb4_unicode_ci 31c5b8c79ac2a5c79dc98a 31c5b8c79ac2a5c79dc98ac8b120 0\nutf8mb4_unicode_ci c5a8c29f c5a8c29f 1\nutf8mb4_unicode_ci c38dc8afc7a8 c38dc8afc7a92020 1\n\
    utf8mb4_unicode_ci c4a0c395c282c3a1 6cc4a0c395c395c282c3a1 0\nutf8mb4_unicode_ci 6c5a 6c5a 1\nutf8mb4_unicode_ci c3a8c6b2c88cc39bc4b3 c6b2c88cc39bc399c4b3 0\nutf8mb4_unicode_ci 3fc680c390 3fc983c390 0\n\
    utf8mb4_unicode_ci 36c4bcc4b2c397c6b6 36c4bcc4b2c397c6b620 1\nutf8mb4_unicode_ci  c4b420 0\nutf8mb4_unicode_ci c793c58dc6adc3b96bc2ac c793c58dc6adc3b96bc2ac2020 1\nutf8mb4_unicode_ci 34c687c2a611 34c687c2a611202020 1\n\
    utf8mb4_unicode_ci c7bbc7b0c5b9c8b2 c7bbc7b0c5b9c8b2 1\nutf8mb4_unicode_ci c6b41dc6bec68ec3b3c892 c6b31dc6bec68ec3b3c892 1\nutf8mb4_unicode_ci  2020 1\nutf8mb4_unicode_ci 2cc38cc58324 2cc38cc58324 1\n\
    utf8mb4_unicode_ci c28ac781c2b6c78ec295c293 c28ac781c2b6c78ec295c39bc29320 0\nutf8mb4_unicode_ci c884c687 c687 0\nutf8mb4_unicode_ci 5fc88c7e48c688 5fc88c7e48c68820 1\nutf8mb4_unicode_ci c7afc5b7c39726c89ec6a3 c7afc5b7c39726c89ec6a3 1\n\
    utf8mb4_unicode_ci c7ac efbbbfc7ac2020 1\nutf8mb4_unicode_ci c2ac  0\nutf8mb4_unicode_ci c389 c389 1\nutf8mb4_unicode_ci c59ac4b1c7a8c98c c59ac4b1c7a8c98d2020 0\n\
    utf8mb4_unicode_ci c886c3b0c39ac4a07ec987 c886c3b0c39ac4a07ec987 1\nutf8mb4_unicode_ci  2020 1\nutf8mb4_unicode_ci 25c5825bc89cc2b6c793 25c5825bc89cc2b6c7932020 1\nutf8mb4_unicode_ci 52c6a3c28fc8ad 52c6a3c28f71c8ad 0\n\
    utf8mb4_unicode_ci  20 1\nutf8mb4_unicode_ci c28fc587c5afc78ec383c699 c28fc78ec383c699 0\nutf8mb4_unicode_ci 57c693c5b6 57c693c5b620 1\nutf8mb4_unicode_ci  5620 0\n\
    utf8mb4_unicode_ci c398f0a08080 c398f0a08080 1\nutf8mb4_unicode_ci c5bf07 c5bf0720 1\nutf8mb4_unicode_ci  20 1\nutf8mb4_unicode_ci c69fc4bac2b1 c69fc6b9c4bac2b1 0\n\
    utf8mb4_unicode_ci c3a0c591 c3a0c590 1\nutf8mb4_unicode_ci c39829 c29829 0\nutf8mb4_unicode_ci  20 1\nutf8mb4_unicode_ci  2020 1\n\
    utf8mb4_unicode_ci c2bac799c58c25c490 c2bac79925c490 0\nutf8mb4_unicode_ci c89ac49643c3bf0cc285 c89ac49643c3bf0cc285 1\nutf8mb4_unicode_ci c6a7c5a3c494c7be27c68b c6a7c5a3c494c7be27c68b 1\nutf8mb4_unicode_ci  24 0\n\
    utf8mb4_unicode_ci c6adc3be c6adc3be 1\nutf8mb4_unicode_ci c892 c892 1\nutf8mb4_unicode_ci c6bec984c48e0a c6bec984c48f0a 1\nutf8mb4_unicode_ci  20 1\n\
    utf8mb4_unicode_ci c29bc7a6c298c5a64fc3bd c6aec29bc7a6c298c5a64fc3bd 0\nutf8mb4_unicode_ci c8b3c29ec287c69a c8b3c29ec2877fc889c69a 0\nutf8mb4_unicode_ci c592 c592 1\nutf8mb4_unicode_ci c284 c2842020 1\n\
    utf8mb4_unicode_ci 77 2020 0\nutf8mb4_unicode_ci 22 2220 1\nutf8mb4_unicode_ci c49cc497c5a807 c49cc497c5a807 1\nutf8mb4_unicode_ci 08 08 1\n\
    utf8mb4_unicode_ci   1\nutf8mb4_unicode_ci c793c6bbc697c4bcc288c691 c793c6bbc697c4bcc288c691 1\nutf8mb4_unicode_ci c5b0c78ac5a6 c5b0c78ac5a6 1\nutf8mb4_unicode_ci c7a6c2be c7a6c2be 1\n\
    utf8mb4_unicode_ci 08c4be 08c593c4be 0\nutf8mb4_unicode_ci 36 20 0\nutf8mb4_unicode_ci 3d0751 0751 0\nutf8mb4_unicode_ci c79a02c3bbc287 c79a02c7b6c3bbc2872020 0\n\
    utf8mb4_unicode_ci c691c68dc3a3c49bc2bb c691c68dc3a3c49bc2bb20 1\nutf8mb4_unicode_ci c39fc2a55cc592c5a3 c39fc2b35cc592c5a3 0\nutf8mb4_unicode_ci  2020 1\nutf8mb4_unicode_ci   1\n\
    utf8mb4_unicode_ci c8b9c3acc391c590c8bdc8a5 c8b9c3acc391c590c8bdc8a52020 1\nutf8mb4_unicode_ci 54c6b9c989 54c6b9c989202020 1\nutf8mb4_unicode_ci c2a9c2b9 c2a9c498 0\nutf8mb4_unicode_ci 68c5aac2bdc7b9 68c5aac2bdc7b9202020 1\n\
    utf8mb4_unicode_ci 51c793c6b9c39f 71c6b9c39f 0\nutf8mb4_unicode_ci  20 1\nutf8mb4_unicode_ci  1e20 1\nutf8mb4_unicode_ci c481c590c691c5b9e2808b c286c481c590c691c5bae2808b 1\n\
    utf8mb4_unicode_ci c6b8c891 c6b8c891 1\nutf8mb4_unicode_ci 48c382c6a5c5a3 48c382c6a5c5a3 1\nutf8mb4_unicode_ci c7bdc5a27ac78a c7bdc5a25ac78a 1\nutf8mb4_unicode_ci 08c3a6 0820 0\n\
    utf8mb4_unicode_ci c6a4c28f c6a4c28f2020 1\nutf8mb4_unicode_ci c49c 39c49c 0\nutf8mb4_unicode_ci c8892fc2a6cc81c4bd c8892fc2a6cc81c4bd 1\nutf8mb4_unicode_ci  20 1\n\
    utf8mb4_unicode_520_ci c2a4c792c88e18c58ec4ad c2a4c792c88e18c58ec4ad 1\nutf8mb4_unicode_520_ci c4bdc29dc78f352c c4bdc29dc78f352c 1\nutf8mb4_unicode_520_ci c2a318 c2a318 1\nutf8mb4_unicode_520_ci c58318c297c482 c58318c297c482 1\n\
    utf8mb4_unicode_520_ci  2020 1\nutf8mb4_unicode_520_ci c486 c486 1\nutf8mb4_unicode_520_ci c989c7bac7bfc3844fc286 c989c7bac7bfc3844fc286 1\nutf8mb4_unicode_520_ci 1ec3b1 1ec3b1 1\n\
    utf8mb4_unicode_520_ci c2b3  0\nutf8mb4_unicode_520_ci c797 c79720202020 1\nutf8mb4_unicode_520_ci  20 1\nutf8mb4_unicode_520_ci   1\n\
    utf8mb4_unicode_520_ci c388c985c5b6c2aec49461 c3a8c985c5b6c2aec49461 1\nutf8mb4_unicode_520_ci   1\nutf8mb4_unicode_520_ci c3adc681 c3ad2020 0\nutf8mb4_unicode_520_ci c4b0c8aec28ac4b4c28ec4b0 c4b0c8aec28ac4b4c28ec4b0 1\n\
    utf8mb4_unicode_520_ci c8a27bc4b2c89766c395 c8a27bc4b2c89766c3952020 1\nutf8mb4_unicode_520_ci c699641f c699641fc7b8 0\nutf8mb4_unicode_520_ci c694c7a807c4acc7a0c7a0 c694c7a8c98907c4acc7a0c7a020 0\nutf8mb4_unicode_520_ci c2b8c396 c2b8c396 1\n\
    utf8mb4_unicode_520_ci c8b1c38cc893 c8b1c38cc893 1\nutf8mb4_unicode_520_ci c8a3c3a7c28dc6bbc38b c8a3c3a7c28dc6bbc38b 1\nutf8mb4_unicode_520_ci c5b5c7b7c3a931c3bb c5b4c7b7c3a931c3bb67 0\nutf8mb4_unicode_520_ci 75c5b3442bc399c6ba 75c5b3442bc399c6ba 1\n\
    utf8mb4_unicode_520_ci c6a0c78c c6a0c78a20 1\nutf8mb4_unicode_520_ci c797c78bc5bc c797c78bc5bb 1\nutf8mb4_unicode_520_ci  20 1\nutf8mb4_unicode_520_ci c489 c48920 1\n\
    utf8mb4_unicode_520_ci c892  0\nutf8mb4_unicode_520_ci 6ec6a9c38cc58f6905 6ec6a9c38cc58f696005 0\nutf8mb4_unicode_520_ci c3a4c38bc689c387c4b6c4bc c3a4c38bc689c387c4b6c4bc 1\nutf8mb4_unicode_520_ci c5bfc3ae1cc3bfc49c c5bfc3ae1cc3bfc49c04 1\n\
    utf8mb4_unicode_520_ci c2b975 c2b975 1\nutf8mb4_unicode_520_ci   1\nutf8mb4_unicode_520_ci c29ec983 c29ec6b9c983 0\nutf8mb4_unicode_520_ci c68ec7b6c79273c3a7c5a7 c68ec7b6c79273c3a7c5a71c20 1\n\
    utf8mb4_unicode_520_ci   1\nutf8mb4_unicode_520_ci   1\nutf8mb4_unicode_520_ci c2af c2af2020 1\nutf8mb4_unicode_520_ci c6b5 20 0\n\
    utf8mb4_unicode_520_ci c683 c399c6832020 0\nutf8mb4_unicode_520_ci c5a85426 c5a85426c6ae 0\nutf8mb4_unicode_520_ci c8b0c792c98bc5aac4a6c5bd c8b0c792c98bc5aac4a6c5bd 1\nutf8mb4_unicode_520_ci c590c5bf0b75c68c c590c5bf0b55c89ac68c 0\n\
    utf8mb4_unicode_520_ci c4973b 3b 0\nutf8mb4_unicode_520_ci c88bc7abc49b35c7b7 c88bc7ab35c7b7 0\nutf8mb4_unicode_520_ci c6b6c792 c6b65dc791 0\nutf8mb4_unicode_520_ci c8bfc88cc3a1c2ae c8bfc88cc3a1c2ae20202020 1\n\
    utf8mb4_unicode_520_ci 2ac69ac486c384 2ac69ac48631c384 0\nutf8mb4_unicode_520_ci c38e72 c38e 0\nutf8mb4_unicode_520_ci c2abc6aec6afc983 c2abc6aec6afc983 1\nutf8mb4_unicode_520_ci c2845f c2845f 1\n\
    utf8mb4_unicode_520_ci c3b5c49e c49e 0\nutf8mb4_unicode_520_ci c2bcc790c6b311 c2bcc790c6b3c3ac1120 0\nutf8mb4_unicode_520_ci c4b8 c4b8 1\nutf8mb4_unicode_520_ci c28dc291c6a525 c28dc6a5252020 1\n\
    utf8mb4_unicode_520_ci c887c7bbc892 c887c7bbc892 1\nutf8mb4_unicode_520_ci 2dc68c6cc4adc6a7 2dc68c6cc4adc6a72020 1\nutf8mb4_unicode_520_ci 6ec8a1c6b5 4ec8a1 0\nutf8mb4_unicode_520_ci c6a41bc48c3fc4aac489 c6a4c48c3fc4aac489 1\n\
    utf8mb4_unicode_520_ci c8861d c8861d 1\nutf8mb4_unicode_520_ci c8ac c8ac 1\nutf8mb4_unicode_520_ci  20 1\nutf8mb4_unicode_520_ci c583  0\n\
    utf8mb4_unicode_520_ci 63c2a7c4b5c6a6c894 63c2a7c4b5c5adc6a6c894 0\nutf8mb4_unicode_520_ci c29251c898c7bbc89540 51c7bbc89540 0\nutf8mb4_unicode_520_ci c5b6c299c797 c5b6c299c797 1\nutf8mb4_unicode_520_ci c58fc4a0c7be c58fc4a1c7be 1\n\
    utf8mb4_unicode_520_ci 4fc89ec28a12 4fc89ec292c28a12 1\nutf8mb4_unicode_520_ci 5ac392c5b4c7abc88f 5ac392c5b4c7abc88f 1\nutf8mb4_unicode_520_ci c2b2 3bc2b2 0\nutf8mb4_unicode_520_ci c287c6b22e4cc5ac c287c6b22e4f4cc5ac2020 0\n\
    utf8mb4_unicode_520_ci c4bfc481c5b1c5bac4bd c4bfc6bec5b1c5bac4bd 0\nutf8mb4_unicode_520_ci c698c7a7c780 c698c7a7c780 1\nutf8mb4_unicode_520_ci c58dc6a6 c58dc6a6 1\nutf8mb4_unicode_520_ci c287 c287c789 0\n\
    utf8mb4_unicode_520_ci c7a9c480c482c6b5c98f c7a9c480c482c6b5c98f 1\nutf8mb4_unicode_520_ci 31c4adc89f 31c3b9c4adc89f2020 0\nutf8mb4_unicode_520_ci c7b9c5a0c7bac286c789c294 c7b9c5a0c7bac286c789c294 1\nutf8mb4_unicode_520_ci c7a5c29ac3aec59547 c7a5c29ac4b9c3aec595 0\n\
    utf8mb4_unicode_520_ci c8b6c980c5b5c2aec6ae c8b6c980c5b5c2aec6ae2020 1\nutf8mb4_unicode_520_ci c6a3c4b7c494c3a20a c6a3c4b7c494c3a20a 1\nutf8mb4_unicode_520_ci c7abc5ae52c48dc7b1c692 c7abc5ae52c48dc7b1c692 1\nutf8mb4_unicode_520_ci 2ec6b5c483 2ec6b5c483 1\n\
    utf8mb4_unicode_520_ci c89ec299c589 c89ec58fc299c589 0\nutf8mb4_unicode_520_ci c392 c392 1\nutf8mb4_unicode_520_ci c6867c71c589c293 c6867c71c589c293 1\nutf8mb4_unicode_520_ci c895c78bc89a c895c78bc89a 1\n\
    utf8mb4_unicode_520_ci c7b9 c7b9 1\nutf8mb4_unicode_520_ci c29f3ec381c698c596c488 c29fc4aa3ec381c698c596c488 0\nutf8mb4_unicode_520_ci c4a825c6be c4a825c6be 1\nutf8mb4_unicode_520_ci  20c5ba 0\n\
    utf8mb4_unicode_520_ci 1b 1b 1\nutf8mb4_unicode_520_ci c587c69ec4aac3bc c587c69ec4aac3bc2020 1\nutf8mb4_unicode_520_ci c6bac5a6 c6bac3bcc5a6 0\nutf8mb4_unicode_520_ci c784c58cc49c7bc5bc22 c784c58cc49c7bc5bc22 1\n\
    utf8mb4_unicode_520_ci c4a7c3906fc48811c488 c4a7c3906fc48811c488 1\nutf8mb4_unicode_520_ci 71c698 71c698 1\nutf8mb4_unicode_520_ci c4adc8afc49e c4adc8afc49e 1\nutf8mb4_unicode_520_ci c293c7b8 c5b1c293c7b9 0\n\
    utf8mb4_0900_ai_ci c8b9 c8b9 1\nutf8mb4_0900_ai_ci c4bd7f c4bd7f 1\nutf8mb4_0900_ai_ci c6a0  0\nutf8mb4_0900_ai_ci c79b  0\n\
    utf8mb4_0900_ai_ci c389 c3892020 0\nutf8mb4_0900_ai_ci 51c6bc4ac686c29dc988 51c6bc4ac686c29dc988 1\nutf8mb4_0900_ai_ci c4b4 c4b4 1\nutf8mb4_0900_ai_ci c88bc98b c4aac98b 1\n\
    utf8mb4_0900_ai_ci c68b786f c68b786f 1\nutf8mb4_0900_ai_ci c5b0c791c7adc694c399 c5b0c7adc9a3c399 0\nutf8mb4_0900_ai_ci c595c299c492c58c c595c299c492c58c 1\nutf8mb4_0900_ai_ci c3882ec69cc490c589 c3882ec69cc58920 0\n\
    utf8mb4_0900_ai_ci 6ec287c390c5bec7a1c58c 6ec287c3b0c5bec7a1c58c 1\nutf8mb4_0900_ai_ci 2c38c795c289 2cc3aa38c795c289 0\nutf8mb4_0900_ai_ci c7bec889c39a c7bec888c39a2020 0\nutf8mb4_0900_ai_ci c49cc487c29fc4a279c585 c49cc486c29fc4a279c5852020 0\n\
    utf8mb4_0900_ai_ci c59d c59d 1\nutf8mb4_0900_ai_ci c3897c c3897c 1\nutf8mb4_0900_ai_ci c6a9c398c6aec288c88cc8a0 c6a9c398c6aec288c88cc8a0 1\nutf8mb4_0900_ai_ci   1\n\
    utf8mb4_0900_ai_ci 1dc68bc28e 1dc68bc28e 1\nutf8mb4_0900_ai_ci c5a2c890c696 c5a2c890c69620c6aa 0\nutf8mb4_0900_ai_ci c2955fc897c3ac c2955fc897c3ac2020 0\nutf8mb4_0900_ai_ci c38cc7b2c7a4c683c585c482 c38cc7b2c7a4c683c585c482 1\n\
    utf8mb4_0900_ai_ci 09c89dc898c48a 09c89dc898c48a 1\nutf8mb4_0900_ai_ci   1\nutf8mb4_0900_ai_ci c896c692c294 c896c294 0\nutf8mb4_0900_ai_ci c489 c488 1\n\
    utf8mb4_0900_ai_ci  2020 0\nutf8mb4_0900_ai_ci 74c7a9c69d 74c7a9c69d20 0\nutf8mb4_0900_ai_ci   1\nutf8mb4_0900_ai_ci 53c98151 53c98151 1\n\
    utf8mb4_0900_ai_ci c599 c599 1\nutf8mb4_0900_ai_ci c59fc5acc480 c59fc5acc480 1\nutf8mb4_0900_ai_ci c6a3  0\nutf8mb4_0900_ai_ci c3a2 c3a2c693 0\n\
    utf8mb4_0900_ai_ci c69a2fc3bcc380c985 c69a2fc3bcc380c9852020 0\nutf8mb4_0900_ai_ci c984 c984 1\nutf8mb4_0900_ai_ci c2bf6f c2bf6f 1\nutf8mb4_0900_ai_ci c395c6ae35c88dc594c8a5 c39535c88dc594c8a5 0\n\
    utf8mb4_0900_ai_ci c5b2c5a5c6bfc3a9c5a6c685 c5b2c5a5c6bfc3a9c5a6c685 1\nutf8mb4_0900_ai_ci  2020 0\nutf8mb4_0900_ai_ci c79f c79f 1\nutf8mb4_0900_ai_ci c5ad c5ad 1\n\
    utf8mb4_0900_ai_ci c5b95ec79ac88fc6ac c5b95ec79ac88ec6ac 1\nutf8mb4_0900_ai_ci c48d4bc794 c48d4bc794 1\nutf8mb4_0900_ai_ci c298c48d0e c298c28bc48d0e 1\nutf8mb4_0900_ai_ci c89cc5b3c6b1c3b2c5a7c79c c89cc5b3c6b1c3b2c5a7c79c 1\n\
    utf8mb4_0900_ai_ci c593c783c8940bc294c3b6 c593c783c8940bc6aac294c3b62020 0\nutf8mb4_0900_ai_ci 65c3a6c497c5b5c3a5c982 65c3a6c497c5b5c3a5 0\nutf8mb4_0900_ai_ci c787  0\nutf8mb4_0900_ai_ci c5b827 c5b82720 0\n\
    utf8mb4_0900_ai_ci c2bac68ec8a0c5a9c5a3 c68ec8a0c5a9c5a320 0\nutf8mb4_0900_ai_ci c8b5c988c6a2c4b5c889 c8b5c988c6a2c4b5c88920 0\nutf8mb4_0900_ai_ci c79554 c795c2a554 0\nutf8mb4_0900_ai_ci   1\n\
    utf8mb4_0900_ai_ci  20 0\nutf8mb4_0900_ai_ci c493c4bdc399c6b5 c493c4bdc399 0\nutf8mb4_0900_ai_ci c38cc3bbc49d5e c38cc59cc3bbc49d5e2020 0\nutf8mb4_0900_ai_ci c691c886c4a6 c886c4a62020 0\n\
    utf8mb4_0900_ai_ci c7b15e c7b15e 1\nutf8mb4_0900_ai_ci c3a5c38cc7ad c3a5c38cc7ad 1\nutf8mb4_0900_ai_ci  c2bc 0\nutf8mb4_0900_ai_ci c5afc986c8ac55 c5afc986c8ac5520 0\n\
    utf8mb4_0900_ai_ci  2020 0\nutf8mb4_0900_ai_ci  20 0\nutf8mb4_0900_ai_ci c3bac785 c392c3bac785 0\nutf8mb4_0900_ai_ci  c694 0\n\
    utf8mb4_0900_ai_ci 21 21 1\nutf8mb4_0900_ai_ci c28757c7a2 c28757c7a2 1\nutf8mb4_0900_ai_ci  2020 0\nutf8mb4_0900_ai_ci 33c293c7bac280c7bac6be 33c293c7bac280c7bac6be 1\n\
    utf8mb4_0900_ai_ci c4ad0bc480 c4ad0bc480 1\nutf8mb4_0900_ai_ci 795dc8a2c8bc 795dc8a3c8bc2020 0\nutf8mb4_0900_ai_ci c5b622c3aec8a8c8bdc29b c5b622c3aec8a8 0\nutf8mb4_0900_ai_ci 16c6862ac287c595c688 16c6862ac287c595c688 1\n\
    utf8mb4_0900_ai_ci 4ac78dc4bbc58f c78dc4bbc58f 0\nutf8mb4_0900_ai_ci c6b5 c6b52020 0\nutf8mb4_0900_ai_ci 41c685c482 41c685c482 1\nutf8mb4_0900_ai_ci 046bc4b5c3a1c984c98f 046bc4b5c3a1c984c98f 1\n\
    utf8mb4_0900_ai_ci 0dc6904d 0dc690 0\nutf8mb4_0900_ai_ci 5cc3b940c6adc89b 5cc3b940c6adc89b20 0\nutf8mb4_0900_ai_ci c8b6c4bec884 c8b6c4bec884c399 0\nutf8mb4_0900_ai_ci 21c293c7b9c7b0c5b8c299 21c293c7b94ac5b8c299 1\n\
    utf8mb4_0900_ai_ci 77c393c492c8ab 77c393c492c8ab 1\nutf8mb4_0900_ai_ci 0ec7bcc78fc293c297c583 0ec7bcc78fc293c297c583 1\nutf8mb4_0900_ai_ci c784c497c795 c5b2c784c497 0\nutf8mb4_0900_ai_ci c5bbc696c98d55 c5bb23c696c98d55 0\n\
    utf8mb4_0900_ai_ci   1\nutf8mb4_0900_ai_ci c8b2 c8b22020 0\nutf8mb4_0900_ai_ci c3bc c3bc 1\nutf8mb4_0900_ai_ci c5a3c6bbc8ba62 c5a3c3b8c6bbc8ba62 0\n\
    utf8mb4_0900_ai_ci  20 0\nutf8mb4_0900_ai_ci   1\nutf8mb4_0900_ai_ci c3afc593c3b5c38dc89dc2a7 c3afc593c3b5c38dc89dc2a7 1\nutf8mb4_0900_ai_ci 56c88ac2a53e 56c88ac2a53e2020 0\n\
    utf8mb4_0900_ai_ci c480c595 c480c59520 0\nutf8mb4_0900_ai_ci c5a4c6b1c5bcc39201e2808b c5a4c6b1c5bbc39201e2808b 1\nutf8mb4_0900_ai_ci c286c2b6c686 c286c2b6c4b0c686 0\nutf8mb4_0900_ai_ci  c580 0\n\
    utf8mb4_0900_as_cs 7142c6b4 7142c6b3 0\nutf8mb4_0900_as_cs c4822b c4822b 1\nutf8mb4_0900_as_cs c884 c884 1\nutf8mb4_0900_as_cs c5bfc59f c5bfc59f2020 0\n\
    utf8mb4_0900_as_cs c2b735c79f c2b735c79f 1\nutf8mb4_0900_as_cs c58ec2a7c3aac7abc2a6c6b4 c89dc58ec2a7c3aac7abc2a6 0\nutf8mb4_0900_as_cs c69770c4bf5d c69770c4bf5d 1\nutf8mb4_0900_as_cs c796c2a6c6bdc7b6 c796c2a6c6bdc7b620 0\n\
    utf8mb4_0900_as_cs c28f401fc8bbc8a2 c28f401fc8bbc8a2 1\nutf8mb4_0900_as_cs c988c8a7c287 c988c8a7c28720c78d 0\nutf8mb4_0900_as_cs 2d 2d 1\nutf8mb4_0900_as_cs c4b4c6a7c989c79a c4b4c6a7c989c79a 1\n\
    utf8mb4_0900_as_cs c987c5a5 c987c5a5 1\nutf8mb4_0900_as_cs c595c890c5b6c984 c595c890c5b7c984 0\nutf8mb4_0900_as_cs   1\nutf8mb4_0900_as_cs c6b5  0\n\
    utf8mb4_0900_as_cs c7bc c7bc20 0\nutf8mb4_0900_as_cs c5bcc483c3b843c489c4ab c5bcc483c3b843c489c4ab20 0\nutf8mb4_0900_as_cs 22c4acc7a9c7ad 22c4acc7a9c7ad2020 0\nutf8mb4_0900_as_cs c2a75ec89fc8b0c38b c2a75ec89fc8b0c38b 1\n\
    utf8mb4_0900_as_cs  c69120 0\nutf8mb4_0900_as_cs e2808bc897c59bc4a4 e2808bc897c59bc4a4 1\nutf8mb4_0900_as_cs  2020 0\nutf8mb4_0900_as_cs c3a7c2adc294c6bb c3a7c2adc294c6bb 1\n\
    utf8mb4_0900_as_cs c581c38cc79cc2bd00 c581c38cc79c 0\nutf8mb4_0900_as_cs c38f33114ec68cc5b2 c38f33114ec68cc5b2 1\nutf8mb4_0900_as_cs c380c2a505 c380c2a5 1\nutf8mb4_0900_as_cs c6b420c3bb3fc69273 c6b420c3bb3fc69273 1\n\
    utf8mb4_0900_as_cs c5bfc8b5 c5bfc8b5202020 0\nutf8mb4_0900_as_cs c288c685c89760c585c7b5 c288c685c89760c585c7b5 1\nutf8mb4_0900_as_cs 03c79ec3b0c69dc8bf c7b203c79ec3b0c69dc8bf 0\nutf8mb4_0900_as_cs  202020 0\n\
    utf8mb4_0900_as_cs c68113c5a0 c68113c5a0 1\nutf8mb4_0900_as_cs c4acc3adc697c7bc c4acc3adc69720 0\nutf8mb4_0900_as_cs c5ba333f c5b9333f 0\nutf8mb4_0900_as_cs c6b6c2a0c294 c6b6c2a0c899c294 0\n\
    utf8mb4_0900_as_cs c383c290 c383c290 1\nutf8mb4_0900_as_cs c6a7c58106 c58106 0\nutf8mb4_0900_as_cs c5bdc5b3 c5bdc5b3202020 0\nutf8mb4_0900_as_cs 52c688c28625c290 72c688c28625c290 0\n\
    utf8mb4_0900_as_cs   1\nutf8mb4_0900_as_cs c4bcc48ec5942951 c4bcc48fc5942951 0\nutf8mb4_0900_as_cs c28c c28c 1\nutf8mb4_0900_as_cs c585 c585 1\n\
    utf8mb4_0900_as_cs c2a1 c2a1 1\nutf8mb4_0900_as_cs c38bc6a2c5bd c38bc6a2c5bd 1\nutf8mb4_0900_as_cs c4be c4be 1\nutf8mb4_0900_as_cs c2bbc79719c98bc2b67c c2bbc79719c98bc2b67c 1\n\
    utf8mb4_0900_as_cs   1\nutf8mb4_0900_as_cs c290c6a8c4aac88dc399 c290c6a8c4aac88dc3992020 0\nutf8mb4_0900_as_cs   1\nutf8mb4_0900_as_cs  20 0\n\
    utf8mb4_0900_as_cs c899c88dc8a9c6b2 c899c989c88dc8a9c6b22020 0\nutf8mb4_0900_as_cs c492c7a1c8bcc783c79c c492c7a1c8bcc79c2020 0\nutf8mb4_0900_as_cs cc8153c982c59f6c cc81c98553c982c59f6c 0\nutf8mb4_0900_as_cs c4b3c3aa2dc3b376c392 c4b3c3aa2dc3b376c392 1\n\
    utf8mb4_0900_as_cs c692 2020 0\nutf8mb4_0900_as_cs c69ec283c982c3acc8bfc393 c69ec283c982c3acc8bf 0\nutf8mb4_0900_as_cs c29d77c688 c29d77c688 1\nutf8mb4_0900_as_cs c5af15c7ac c5af15c7ac 1\n\
    utf8mb4_0900_as_cs c7b33cc3bfc4a2c2b1 c7b33cc4a2 0\nutf8mb4_0900_as_cs c7a045c58558 c7a0c799c58558 0\nutf8mb4_0900_as_cs c48bc894c4b5c284c8ad3c c48bc895c4b5c284c8adc6b23c 0\nutf8mb4_0900_as_cs 51c296 51c2b1c296 0\n\
    utf8mb4_0900_as_cs c285c2b019c8a3 c285c2b019c8a32020 0\nutf8mb4_0900_as_cs   1\nutf8mb4_0900_as_cs  c6b7 0\nutf8mb4_0900_as_cs   1\n\
    utf8mb4_0900_as_cs c8a8c5b1c7a831c899c8a2 c8a8c5b1c5a8c5b7c7a831c899c8a2 0\nutf8mb4_0900_as_cs  c987c68a 0\nutf8mb4_0900_as_cs c791c98412 02c791c984 1\nutf8mb4_0900_as_cs c5acc78b c78b 0\n\
    utf8mb4_0900_as_cs  2020 0\nutf8mb4_0900_as_cs 41c2b3 41c2b3 1\nutf8mb4_0900_as_cs c98b c98a 0\nutf8mb4_0900_as_cs  20 0\n\
    utf8mb4_0900_as_cs c694c386c986c3a5 c694c386c986c3a5 1\nutf8mb4_0900_as_cs c7b2 c7b2 1\nutf8mb4_0900_as_cs   1\nutf8mb4_0900_as_cs c898c7b6 c39ec898c7b6 0\n\
    utf8mb4_0900_as_cs 69c8a9c2b5c880 69c8a9c2b5c880 1\nutf8mb4_0900_as_cs 63c4b3 6320 0\nutf8mb4_0900_as_cs  20 0\nutf8mb4_0900_as_cs 77c989c589c8a6 77c989c6b0c589c386c8a6 0\n\
    utf8mb4_0900_as_cs c98de38080c4a7 c98dc4a7 0\nutf8mb4_0900_as_cs c4a7c886c781 c4a7c886c781 1\nutf8mb4_0900_as_cs c8a1c798c299c4b7efbbbfc494 c8a1c39cc798c299c4b7efbbbfc49420 0\nutf8mb4_0900_as_cs 4fc4a422c985c695c285 4f22c985c695 0\n\
    utf8mb4_0900_as_cs efbbbfc58bc48c efbbbfc58bc989 0\nutf8mb4_0900_as_cs  c2b2 0\nutf8mb4_0900_as_cs c4a8c6bec3a3c3b9 c4a8c6bec3a3c3b920 0\nutf8mb4_0900_as_cs c8a9f0a080804a c8a9f0a080804a 1\n\
    utf8mb4_0900_as_cs c281c4832b c281c4832b 1\nutf8mb4_0900_as_cs c483c3b0c59b52c488 c483c59b52c488 0\nutf8mb4_0900_as_cs 6ac286c3b7 6ac286c3b7 1\nutf8mb4_0900_as_cs c58bc799c6a0 c58bc79ac6a0 0\n\
    utf8mb4_0900_as_cs 53c88aefbbbfc79f24c6bc 73c8aec88aefbbbfc79f24c6bc 0\nutf8mb4_0900_as_cs c693  0\nutf8mb4_0900_as_cs c988c48ac283c288 c988c48ac283c288 1\nutf8mb4_0900_as_cs c682381236c78303 c6823812c58536c78303c8a2 0\n\
    utf8mb3_general_ci 33c391c698 33c391c698 1\nutf8mb3_general_ci   1\nutf8mb3_general_ci c782c69ec7b9c8a7c8b4c38f c782c69ec7b9c8a7c8b4c3af 1\nutf8mb3_general_ci c78a6dc385c2b3c487c48c c78a6dc385c2b3c487 0\n\
    utf8mb3_general_ci  2020c3ac 0\nutf8mb3_general_ci   1\nutf8mb3_general_ci c68b12c383c885c594c498 c68b1272c6b4c383c885c594c498 0\nutf8mb3_general_ci c983c392c7a9c8bcc297 c2b2c983c392c7a9c8bcc8a6c297 0\n\
    utf8mb3_general_ci 2ac685c88a 2ac685 0\nutf8mb3_general_ci c69b383d c69b38 0\nutf8mb3_general_ci c5aac3af c5abc3af2020 1\nutf8mb3_general_ci c389c796c8bbc7a1c7a0 c389c796c8bbc7a1c7a0 1\n\
    utf8mb3_general_ci  20 1\nutf8mb3_general_ci c8b0c38378c589c4b2c6b6 c8b0c38378c589c4b2c6b6 1\nutf8mb3_general_ci c3bec2a0c49bc490c8b2 c3bec2a0c884c49bc490c8b2 0\nutf8mb3_general_ci c5bf6dc5b0c6b3c886c6b2 c5bf6d38c5b0c6b3c886c6b2 0\n\
    utf8mb3_general_ci c7aac3a464 c7aac3a4 0\nutf8mb3_general_ci c891 c890 1\nutf8mb3_general_ci c78ec79e3a68 c78ec79e3a68 1\nutf8mb3_general_ci   1\n\
    utf8mb3_general_ci c698c490c383 c698c490c38320 1\nutf8mb3_general_ci c7b7c98bc5aec680c8a8 c7b7c98bc5aec680c8a8202020 1\nutf8mb3_general_ci 730cc3b3c7b4 73c3b3c7b42020 0\nutf8mb3_general_ci c48dc49157 c48dc292c49177 0\n\
    utf8mb3_general_ci c693 c9a0 1\nutf8mb3_general_ci   1\nutf8mb3_general_ci 34c399c5a1c2b8c2b2c4a9 34c399c485c5a1c2b8c2b2c4a9 0\nutf8mb3_general_ci 76c3af0fc6ac 76c3af0fc6ad 1\n\
    utf8mb3_general_ci c2a0c295 c2a00cc29520 0\nutf8mb3_general_ci cc81c288c58fc8b1c3827d cc81c288c58fc8b1c3827d 1\nutf8mb3_general_ci c7b9c38e c7b920 0\nutf8mb3_general_ci 28c383 28c383 1\n\
    utf8mb3_general_ci c592 20 0\nutf8mb3_general_ci c886c383c384c6b171 c886c383c384c6b171 1\nutf8mb3_general_ci efbbbfc985 efbbbfca8c 0\nutf8mb3_general_ci c493c2b602c883c4b6 c493c2b602c883c4b6 1\n\
    utf8mb3_general_ci c8a8c68bc69d 66c8a8c68bc69d20 0\nutf8mb3_general_ci   1\nutf8mb3_general_ci c598c28a c598c28a 1\nutf8mb3_general_ci c492c783 c492c78320 1\n\
    utf8mb3_general_ci c798 c7982020 1\nutf8mb3_general_ci c688 c687 1\nutf8mb3_general_ci 5fc7847c 5fc7847c 1\nutf8mb3_general_ci c2bfc487c4bcc6a4 c2bfc487c4bcc6a4 1\n\
    utf8mb3_general_ci c4adc4b1c38cc5adc285c39c c4adc4b1c38cc5adc285c39c 1\nutf8mb3_general_ci 6ac6b9c39dc48c 6ac6b9c3bd 0\nutf8mb3_general_ci c8a3c8a3c3b2c287c98145 c8a3c8a3c3b2c287c98245 0\nutf8mb3_general_ci c59935c788c4803b3a c59935c788c4803b3a 1\n\
    utf8mb3_general_ci c3bb25c5aa5f c6bcc3bb25c5aa5f 0\nutf8mb3_general_ci c2b8 c2b82020 1\nutf8mb3_general_ci c380 c380 1\nutf8mb3_general_ci 2cc885c8910bc6a2c7b9 2cc885c8910bc6a2c7b9 1\n\
    utf8mb3_general_ci 3dc8aac3b5c896c3b66e c8aac3b5c896c3b6 0\nutf8mb3_general_ci c58cc6b4c2b420c88fc68b c58cc6b4c2b420c88ec68b2020 1\nutf8mb3_general_ci c5aa1f c5aa1f20 1\nutf8mb3_general_ci c59dc68bc780 c59dc68bc780c98f 0\n\
    utf8mb3_general_ci c7a4c5abc2a7 c7a4c5abc2a7 1\nutf8mb3_general_ci 3ec899c590 3e73c899c590 0\nutf8mb3_general_ci c98631 c98631 1\nutf8mb3_general_ci  2020 1\n\
    utf8mb3_general_ci c29dc7a6c389 c29dc7a6c389 1\nutf8mb3_general_ci c8acc79ec2b6 c79ec2b6 0\nutf8mb3_general_ci c88e c88e 1\nutf8mb3_general_ci   1\n\
    utf8mb3_general_ci c2a8c6a5c790efbbbf01c38a c2a8c6a5c790efbbbf01c38a 1\nutf8mb3_general_ci   1\nutf8mb3_general_ci c6964bc89ac69b c6964bc89ac69b 1\nutf8mb3_general_ci  c69f 0\n\
    utf8mb3_general_ci c3a6 c3a6 1\nutf8mb3_general_ci c699c59bc39568c68e c698c59bc39568 0\nutf8mb3_general_ci 214e 214e 1\nutf8mb3_general_ci c5a6 20 0\n\
    utf8mb3_general_ci 2bc6b5 2b20 0\nutf8mb3_general_ci c4b9c6bdc4acc885 c4bac6bdc4acc885 1\nutf8mb3_general_ci c2ac c2ac 1\nutf8mb3_general_ci c88ec984c2890cc98700 c88ec78ac984c2890cc987002020 0\n\
    utf8mb3_general_ci c39cc3a3c781 c39cc3a3c781 1\nutf8mb3_general_ci  26 0\nutf8mb3_general_ci  20c98d 0\nutf8mb3_general_ci c2a3c8b2c4a6 c2a36dc8b2c4a6 0\n\
    utf8mb3_general_ci c799c2bec98ac690 c799c2bec98ac690 1\nutf8mb3_general_ci c4a9 c4a9 1\nutf8mb3_general_ci 7579 79 0\nutf8mb3_general_ci 79c7af34c8b8 79c7af34c8b8 1\n\
    utf8mb3_general_ci c5acc8bd38 c5acc8bd38 1\nutf8mb3_general_ci  c8afc497 0\nutf8mb3_general_ci c4913bcc80 c491c7b63bcc80 0\nutf8mb3_general_ci c780c280 c780c280 1\n\
    utf8mb3_general_ci c4bec79530c281c4a7c8a0 c4bec79530c281c4a7c8a02020 1\nutf8mb3_general_ci 747d53c6b6c6b8c888 65747d53c6b6c6b8c888 0\nutf8mb3_general_ci   1\nutf8mb3_general_ci c5acc8bdc2ac c5ac3dc8bdc2ac 0\n\
    utf8mb3_general_ci c98dc7b8c7bfc887c6a8 c98dc7b8c887c6a82020 0\nutf8mb3_general_ci c799c79e c799c79e 1\nutf8mb3_general_ci c395 c395206920 0\nutf8mb3_general_ci c8a6c385c2873f c8a6c3a5c2873f 1\n\
    utf8mb3_general_ci 0ec784 0e 0\nutf8mb3_general_ci c2b3c395c4a8 c2b3c880c395c4a82020 0\nutf8mb3_general_ci c4b5c29457c2bc c4b51a57c2bc 0\nutf8mb3_general_ci 5cc2aac2aec6a1 5cc2aac2aec6a1 1\n\
    utf8mb3_unicode_ci c78f c78f 1\nutf8mb3_unicode_ci c4873ec698c494c6afc3b2 c4873ec494c6afc3b220 0\nutf8mb3_unicode_ci 7f47c399 7f47c39912 1\nutf8mb3_unicode_ci c39e c39e 1\n\
    utf8mb3_unicode_ci   1\nutf8mb3_unicode_ci c6a5 c6a5 1\nutf8mb3_unicode_ci c7b4c782c593c2b6c384 c7b4c782c593c2b6c384 1\nutf8mb3_unicode_ci 5fc686c5b4 5fc686c5b4 1\n\
    utf8mb3_unicode_ci 58c891 58c89120 1\nutf8mb3_unicode_ci c796c89ec8bb07c388 c89ec8bbc388 0\nutf8mb3_unicode_ci c5adc5af c5ae 0\nutf8mb3_unicode_ci   1\n\
    utf8mb3_unicode_ci c3bb c3bb2020 1\nutf8mb3_unicode_ci c58cc5b9c783 c58cc5b9c783 1\nutf8mb3_unicode_ci 71c8b524 71c8b524 1\nutf8mb3_unicode_ci c396c59e4fc6b9c482 c396c59e4fc482 0\n\
    utf8mb3_unicode_ci c3b93bc4be60c4be c799c3b93bc4be60c4bd 0\nutf8mb3_unicode_ci c297c6b8c5b1c891 c297c6b8c5b1c891 1\nutf8mb3_unicode_ci  20c28a 1\nutf8mb3_unicode_ci c4b949c785c7a9c2a7c3b5 c4b949c785c7a9c2a7c395 1\n\
    utf8mb3_unicode_ci 01c8a21ec38b 01c8a21ec38b2020 1\nutf8mb3_unicode_ci c397c58f5defbbbfc68fc6a4 c397c58f5defbbbfc68fc6a4 1\nutf8mb3_unicode_ci c683c987c59ec683 c683c7bdc987c59ec68320 0\nutf8mb3_unicode_ci c4a0c88ec5ad c4a0c88ec5ad 1\n\
    utf8mb3_unicode_ci c382c28fc8a7c4b1c8ab61 c382c28fc8a7c4b1c8ab61 1\nutf8mb3_unicode_ci c7b3c5a6c696c2bd21 c7b3c5a617c696efbbbfc2bd21 1\nutf8mb3_unicode_ci   1\nutf8mb3_unicode_ci 3dc692c29e 3dc692c39ac29e 0\n\
    utf8mb3_unicode_ci c28cc2bbc88d46 c28cc2bbc88dc284 0\nutf8mb3_unicode_ci c692c8bcc385c895c691 c692c8bcc385c895c69263 0\nutf8mb3_unicode_ci c5abc6a8c2b2c6a0c499c3af c7bac5abc6a8c2b2c6a0c499c3af 0\nutf8mb3_unicode_ci c5bfc89408c4abc4a6c881 c5bfc89408c4a6c8812020 0\n\
    utf8mb3_unicode_ci c492c295c392c79c27c495 c492c295c392c79c27c495 1\nutf8mb3_unicode_ci   1\nutf8mb3_unicode_ci 593444c7bdc28a 593444c7bdc28a 1\nutf8mb3_unicode_ci c799c68ec3a7 c799c68ec3a7c2bb20 0\n\
    utf8mb3_unicode_ci 36c6a9c2ad35c4a9 36c6a9c2ad35c4a9 1\nutf8mb3_unicode_ci 2dc29fc883 2dc29fc883 1\nutf8mb3_unicode_ci c383c395c2a5c39ac281 c395c68ec2a5c39ac281 0\nutf8mb3_unicode_ci   1\n\
    utf8mb3_unicode_ci 11c69ec5b8 11c69ec5b8 1\nutf8mb3_unicode_ci c595c29a c595c29ac483 0\nutf8mb3_unicode_ci c58ac8a0 c8a0c78c 0\nutf8mb3_unicode_ci c59b3cc58bc790c2a6 c59b3cc58bc790c2a6 1\n\
    utf8mb3_unicode_ci  2020 1\nutf8mb3_unicode_ci   1\nutf8mb3_unicode_ci 1bc7b36ac380c68f 1bc7b36ac380c79fc68f2020 0\nutf8mb3_unicode_ci c89bc6a570c48c c89bc6a570c48c2020 1\n\
    utf8mb3_unicode_ci c6be2cc796c39d c6be2cc796c39d2020 1\nutf8mb3_unicode_ci  c2b120 0\nutf8mb3_unicode_ci 02c4acc6ae41 02c4acc6ae41 1\nutf8mb3_unicode_ci c5a1c69b c884c5a1c69b 0\n\
    utf8mb3_unicode_ci  20 1\nutf8mb3_unicode_ci c493c286c3910d c493c286c391c886 0\nutf8mb3_unicode_ci c789 c7892020 1\nutf8mb3_unicode_ci 36c984c6a56fc8b421 36c6a5c9876fc8b421 0\n\
    utf8mb3_unicode_ci c2acc797420b c2acc79742 0\nutf8mb3_unicode_ci c8b108c290c3a702c8a0 c8b108c290c3a702c8a020 1\nutf8mb3_unicode_ci  2020 1\nutf8mb3_unicode_ci c3b0c6bd6ec7b2 c3b0c6bd6ec7b2 1\n\
    utf8mb3_unicode_ci c595c2a7 c493c595c2a7 0\nutf8mb3_unicode_ci c399c3ba55c39ec2a9 c399c3ba55c39e 0\nutf8mb3_unicode_ci c4b45e50c395c284 c4b45e70c395c284 1\nutf8mb3_unicode_ci 4dc78cc488c5b1c3bd 4dc78cc489c5b1c3bd 1\n\
    utf8mb3_unicode_ci c2b0 c2b0 1\nutf8mb3_unicode_ci c3b4c6b24cc5bc c6b24c 0\nutf8mb3_unicode_ci c8a2c2b13dc8a9 c2b13dc8a9 0\nutf8mb3_unicode_ci 2cc49d06c8bac7a8 2cc49d06c8bac7a8 1\n\
    utf8mb3_unicode_ci c38473c5a9 c38473c5a9 1\nutf8mb3_unicode_ci c597c880c883c488c2a8 c597c880c883c488c2a8 1\nutf8mb3_unicode_ci cc80c4a3c4afc7b3c889 cc80c4a3c4afc889 0\nutf8mb3_unicode_ci c884c6b6 c884c6b6 1\n\
    utf8mb3_unicode_ci  20 1\nutf8mb3_unicode_ci   1\nutf8mb3_unicode_ci  c6ac 0\nutf8mb3_unicode_ci 41c4bfc6afc68bc5bdc590 41c580c6afc68bc590 0\n\
    utf8mb3_unicode_ci 5bc296c8bac984 5bc296c8bac984202020 1\nutf8mb3_unicode_ci c783c884c6abc3a6c8b7 c783c884c6abc3a6c8b7 1\nutf8mb3_unicode_ci c483c6a8c598c4bfc2b12a c6a8c598c4bf2a 0\nutf8mb3_unicode_ci  60 0\n\
    utf8mb3_unicode_ci 66c7807cc7a6c5a5 c8be66c7807cc7a6c5a5c7be 0\nutf8mb3_unicode_ci 7ac581 7ac581c7b8 0\nutf8mb3_unicode_ci 7cc2a8c894 7cc2a8c895 1\nutf8mb3_unicode_ci c8a2c78bc8855ac7be c8a2c78bc8855ac7be20c4be 0\n\
    utf8mb3_unicode_ci c9817f c98120 1\nutf8mb3_unicode_ci 6465 6465 1\nutf8mb3_unicode_ci c3b9c7bbc3b8c7b1 c399c7bbc7b1 0\nutf8mb3_unicode_ci 2dc2aa c2aa 0\n\
    utf8mb3_unicode_ci 3f0fc6b6c593c4b8c8b7 3f0fc593c4b8c8b7 0\nutf8mb3_unicode_ci c3bbc5abc29548 c389c3bbc29548 0\nutf8mb3_unicode_ci c38023c2b4c5aec6be c594c38023c2b4c5aec6be20 0\nutf8mb3_unicode_ci c48dc397c2a4c396c69f c48dc397c2a4c396c796c69f 0\n\
    utf8mb3_unicode_ci c89bc2bdc2b3c3b4c79bc292 c89bc2bdc2b3c3b4c79bc292 1\nutf8mb3_unicode_ci c4a0c981c58bc2a4 c4a0c981c58bc2a4c88a 0\nutf8mb3_unicode_ci c587c8abc98bc4a0c3b6 c587c8abc98bc4a0c3b6 1\nutf8mb3_unicode_ci c387c2aac4a020c291c285 c387c2aac4a020c291c285 1\n\
    utf8mb3_unicode_ci   1\nutf8mb3_unicode_ci 35c5a6c78b 35c5a6c78b 1\nutf8mb3_unicode_ci c294c6b6c39dc2a0c8adc5ae c294c6b6c39dc2a0c8adc5ae 1\nutf8mb3_unicode_ci c2b246c48cc5bcc597 c2b246c48cc5bcc597 1\n\
    ascii_bin 6e 6e 1\nascii_bin 2f1b 2f1b 1\nascii_bin 023211 3d023211 0\nascii_bin 28 28 1\n\
    ascii_bin 3451 34215120 0\nascii_bin 3a435864510c 3a435864510c 1\nascii_bin 74331c762763 331c7627632020 0\nascii_bin 355056 355056 1\n\
    ascii_bin 7e 7e 1\nascii_bin 660177 6677 0\nascii_bin 7b56 7b562020 1\nascii_bin   1\n\
    ascii_bin 64797c 642179 0\nascii_bin 490f763b17 690f763b 0\nascii_bin 4d29733644 6d297344 0\nascii_bin 4d 4d 1\n\
    ascii_bin 6401307a03 6401307a 0\nascii_bin 4342  0\nascii_bin   1\nascii_bin 630b09327937 630b09327937 1\n\
    ascii_bin 524c7c 524c7c 1\nascii_bin 41432965 4143652020 0\nascii_bin 7f393c 497f0b393c 0\nascii_bin 721363 4f721363 0\n\
    ascii_bin  20 1\nascii_bin   1\nascii_bin 305a321b09 305a321b09 1\nascii_bin 300d2d 300d2d 1\n\
    ascii_bin 0a41 360a41 0\nascii_bin 30 30 1\nascii_bin 68102d410b25 68102d410b2520 1\nascii_bin 030f372c5323 030f372c53232020 1\n\
    ascii_bin 2c6700005506 2c6700000e550620 0\nascii_bin 14 14 1\nascii_bin 7b76122b4504 7b764504 0\nascii_bin 694a332e5119 494a332e511920 0\n\
    ascii_bin 4a4d331c03 4a4d331c0320 1\nascii_bin 3537 372020 0\nascii_bin 3c327f51667b 3c327f51667b 1\nascii_bin 1a5f137740 1a5f1357 0\n\
    ascii_bin 0f0555 0f0555 1\nascii_bin 023f20 023f202020 1\nascii_bin   1\nascii_bin 183b0d 2c183b0d6c 0\n\
    ascii_bin 5e1a 675e 0\nascii_bin   1\nascii_bin 4727 4727 1\nascii_bin 27 27 1\n\
    ascii_bin 0e6970 0e6950 0\nascii_bin 0703546f4c 0703546f4c 1\nascii_bin 0d7051 51 0\nascii_bin 062b47 062b672020 0\n\
    ascii_bin 3d11 3d 0\nascii_bin 51 51 1\nascii_bin 4f525d 4f725d 0\nascii_bin 7c24356a371a 7c24356a371a 1\n\
    ascii_bin 142b03051574 142b051554 0\nascii_bin 122f5b2c 122f5b2c 1\nascii_bin 6a 6a20 1\nascii_bin  202020 1\n\
    ascii_bin 1b007b 1b007b 1\nascii_bin 5d67245d233c 5d67245d233c 1\nascii_bin 533019 53301920 1\nascii_bin 7034 70 0\n\
    ascii_bin 7426410d 7426410d2020 1\nascii_bin 32  0\nascii_bin 7d320a6658 7d320a6678 0\nascii_bin 6a3831 4a3831 0\n\
    ascii_bin 1403277e377f 03277e377f20 0\nascii_bin 641f 641f 1\nascii_bin 1119582b 111958342b 0\nascii_bin 6d 4d2020 0\n\
    ascii_bin 6841 684120 1\nascii_bin 3e6068080a31 3e6c6068080a 0\nascii_bin 6752 52 0\nascii_bin 684673642c20 684673642c20 1\n\
    ascii_bin 6e595d5f6f 6e5d5f4f 0\nascii_bin   1\nascii_bin 1f55 1f 0\nascii_bin  3320 0\n\
    ascii_bin 5b 6d5b 0\nascii_bin 49 49 1\nascii_bin 2c6c5e 2c6c5e20 1\nascii_bin 5f072a2e5b78 5f072a2e5b 0\n\
    ascii_bin 72311f5204 72311f520420 1\nascii_bin 38704f 4038706f 0\nascii_bin 461432 461432 1\nascii_bin 1c0901 1c 0\n\
    ascii_bin 393d087f 393d087f202020 1\nascii_bin 5434301c07 5434301c 0\nascii_bin 4c4718225e 4c4718225e20 1\nascii_bin 6c540f 4c540f20 0\n\
    ascii_bin 4d157638 4d1576382020 1\nascii_bin 35  0\nascii_bin 4a784947 4a784947 1\nascii_bin   1\n\
    ascii_bin 40292d2a 40292d2a 1\nascii_bin 4d6565 6545 0\nascii_bin 2a 2a35 0\nascii_bin 2b543e 2b4c743e 0\n\
    latin1_bin d5a4b64f d5a4b64f 1\nlatin1_bin eb74a06a eb74d5a06a 0\nlatin1_bin a84146ca a88b4146ca 0\nlatin1_bin 90120f11d0 901211f0 0\n\
    latin1_bin bb15ece997cc bb15ece997cc 1\nlatin1_bin a981f9 a981ba76f9 0\nlatin1_bin   1\nlatin1_bin   1\n\
    latin1_bin 4ca121b81b1f 4ca121b81b1f2020 1\nlatin1_bin c4a46e47db 6e47db 0\nlatin1_bin 91  0\nlatin1_bin 0273  0\n\
    latin1_bin 87 87 1\nlatin1_bin 99f0cf 99cf 0\nlatin1_bin ee8708 ee 0\nlatin1_bin e5e8da e5da 0\n\
    latin1_bin 6fbbdf5759 6fbbdf59 0\nlatin1_bin eab50b6e38 b50b6e 0\nlatin1_bin 14e5 14e520a5 0\nlatin1_bin   1\n\
    latin1_bin 312e 312e20 1\nlatin1_bin bb752eaa 54bb752eaa2020 0\nlatin1_bin 7c 7c 1\nlatin1_bin 7888 782020 0\n\
    latin1_bin c8 c8 1\nlatin1_bin 1207858f 1207858f 1\nlatin1_bin 3bf9d2 3bf9d2dd 0\nlatin1_bin 311f 311f 1\n\
    latin1_bin f9bc 00f9bc 0\nlatin1_bin 8766dbc3 66dbc3 0\nlatin1_bin bc bc 1\nlatin1_bin  20 1\n\
    latin1_bin e390f0bc e390f0bc20 1\nlatin1_bin a8 a82020 1\nlatin1_bin bc57e3 bc57e3 1\nlatin1_bin 8041 41 0\n\
    latin1_bin 51 71 0\nlatin1_bin 013f 3f2020 0\nlatin1_bin 66 2020 0\nlatin1_bin 19 2020 0\n\
    latin1_bin 4742ad 47ad 0\nlatin1_bin ed3108 ed31 0\nlatin1_bin 4ac22c c22c 0\nlatin1_bin 442b85974d 442b85264d 0\n\
    latin1_bin aa33e22b aa33e22b 1\nlatin1_bin 0662b8e0 06b8 0\nlatin1_bin  a42020 0\nlatin1_bin 08 0820 1\n\
    latin1_bin 0c359c0a 0c359c0a2020 1\nlatin1_bin 58855a 58855a 1\nlatin1_bin 170b6060583d 170b606058 0\nlatin1_bin b8189e3855 b8189e3855 1\n\
    latin1_bin 00 00 1\nlatin1_bin   1\nlatin1_bin 57 57 1\nlatin1_bin 774802 77480220 1\n\
    latin1_bin effb104b effb104b2020 1\nlatin1_bin 82edb6 82edb6 1\nlatin1_bin adedd578 adedd57820 1\nlatin1_bin bfeef5fd0360 bfeef5f0fd0360 0\n\
    latin1_bin 6233 62 0\nlatin1_bin abee175f857c abee175f857c 1\nlatin1_bin dd4158 dd4158 1\nlatin1_bin 14a0f798 a0f798 0\n\
    latin1_bin 828ec07d 82c07d 0\nlatin1_bin 72af9d8d 72af9d8d 1\nlatin1_bin a3c2857c a3c2857c 1\nlatin1_bin 2afd54be 0d2afd54be 0\n\
    latin1_bin 5129e2f4 7a5129e2f420 0\nlatin1_bin baa2266e71 baa2266e71 1\nlatin1_bin 4ab5af5754 4ab5af5754 1\nlatin1_bin 62686910d4 626869d420 0\n\
    latin1_bin eb eb 1\nlatin1_bin a90ea1 a90ea1 1\nlatin1_bin 5b4076d6f958 4076d6f95820 0\nlatin1_bin 3c3f3208 3c3f3208 1\n\
    latin1_bin ee5b2a2d ee5b032a2d2020 0\nlatin1_bin 06 2020 0\nlatin1_bin 8e61b0 8e61b0 1\nlatin1_bin e0faedfcef85 e0faedfcef8520 1\n\
    latin1_bin  20 1\nlatin1_bin ae20 ae20 1\nlatin1_bin c68fc9 c68fc9 1\nlatin1_bin 229a 9a 0\n\
    latin1_bin 84 84 1\nlatin1_bin 0a4b5c5fc3 0a6b5c5f 0\nlatin1_bin 3f7ece5795b1 3f7e18ce5795b1 0\nlatin1_bin 41cb3ac2 41cb3ac2 1\n\
    latin1_bin 7406 7406 1\nlatin1_bin   1\nlatin1_bin c3 5999c3 0\nlatin1_bin  20 1\n\
    latin1_bin   1\nlatin1_bin bbb5c53b bbb5c53b 1\nlatin1_bin 54 54 1\nlatin1_bin 6b 6b 1\n\
    latin1_bin 705cec 705cec 1\nlatin1_bin f773 f7732020 1\nlatin1_bin 09063f 09063f7f 0\nlatin1_bin 19 19202020 1\n\
    utf8mb3_bin c692 c692 1\nutf8mb3_bin c297c2b5c2b343c585c39f c297c2b5c2b343c585c39f 1\nutf8mb3_bin 0464c59f 0464c59f 1\nutf8mb3_bin 1ec88fc584c3bfc284 1ec88fc584c3bfc284 1\n\
    utf8mb3_bin c89a c89a 1\nutf8mb3_bin c397c596 c3972020 0\nutf8mb3_bin c6a8 c6a8 1\nutf8mb3_bin c784c2adc692c5b2c5bec4b7 c784c2adc692c5b2c5bec4b7 1\n\
    utf8mb3_bin c387c5aa c387c5aa2020 1\nutf8mb3_bin  20 1\nutf8mb3_bin c2a9c98e c2a9c98e20 1\nutf8mb3_bin c49a c5a7c49a 0\n\
    utf8mb3_bin c2b3c89cc89ac48cc984c3ba c2b3c89cc89ac48cc984c3ba 1\nutf8mb3_bin c79c c79c 1\nutf8mb3_bin c480 c4802020c28a 0\nutf8mb3_bin c495c7b7c582c2afc5b9 c495c7b7c582c2afc5b9 1\n\
    utf8mb3_bin 040c 040c 1\nutf8mb3_bin c686c6a2c4a2c5ab c686c6a2c4a2c5ab20202020 1\nutf8mb3_bin c283 c283 1\nutf8mb3_bin c9887756c98cc98c c9887756c98cc98c 1\n\
    utf8mb3_bin 5a6ac2b8c3a5 5a6ac2b8c3a5 1\nutf8mb3_bin 38c3a1 38c3a1 1\nutf8mb3_bin c6a5c6a9 64c6a5c6a9c29a 0\nutf8mb3_bin c8b0c483c780c68f0dc8a1 c8b0c483c780c68f0dc8a1 1\n\
    utf8mb3_bin c5a1c796c98bc68b49 c5a1c796c68b49 0\nutf8mb3_bin e380806c e380802020 0\nutf8mb3_bin c789c4a1 c787c4a120 0\nutf8mb3_bin   1\n\
    utf8mb3_bin c4a7c7acc6bb c4a7c7adc6bb 0\nutf8mb3_bin c293c381c5bf c293c38153 0\nutf8mb3_bin c381c699c28fc892 c381c699c28fc892 1\nutf8mb3_bin 20c2ac 20 0\n\
    utf8mb3_bin 6c4ec3960e 6c4ec3960e20 1\nutf8mb3_bin c7b0c580c7a1c6afc2b0 c7b0c580c7a1c6afc2b02020 1\nutf8mb3_bin c592c3b920c4ad c592c3b920c4ad 1\nutf8mb3_bin 56192305c789c3a1 192305c789c3a1 0\n\
    utf8mb3_bin c586c582c58962 c586c582c58942 0\nutf8mb3_bin c4a7 c4a620 0\nutf8mb3_bin c48fc8bb4fc69bc584c7a1 c48fc8bc4fc69bc584c7a1 0\nutf8mb3_bin c589c2b3c984c4be2a c589c2b3c984c4be2a2020 1\n\
    utf8mb3_bin c6b111  0\nutf8mb3_bin c8b7c398c28d62 c8b7c398c28d62 1\nutf8mb3_bin c8a4e2808bc790c48dc596 c8a4e2808bc790c48dc59642 0\nutf8mb3_bin   1\n\
    utf8mb3_bin   1\nutf8mb3_bin c6aec786 c7862020 0\nutf8mb3_bin c68a25c8a9 c68a25c8a9 1\nutf8mb3_bin 0775 0775 1\n\
    utf8mb3_bin c68d  0\nutf8mb3_bin c4ac c394c4ac 0\nutf8mb3_bin c6bcc5b0c694 c6bc 0\nutf8mb3_bin c792c6be57 c792c6be57 1\n\
    utf8mb3_bin c4afc7acc4aac7b143c29e c4afc7acc4aac7b143c29e 1\nutf8mb3_bin 5f68c89fc697c2b6 5f68c89fc697c2b6 1\nutf8mb3_bin c5bcc2bb46c6b6c89611 c5bcc2bb1746c6b6c89611 0\nutf8mb3_bin c6bd c6bc 0\n\
    utf8mb3_bin c2bac8945dc795 c2bac8945dc7952020 1\nutf8mb3_bin   1\nutf8mb3_bin c5b8 c3bf 0\nutf8mb3_bin 71c291 71c291 1\n\
    utf8mb3_bin 0a  0\nutf8mb3_bin c2a9c7b7c4a1 c2a9c6bfc4a0 0\nutf8mb3_bin c987 c987 1\nutf8mb3_bin c981c489 c981c489 1\n\
    utf8mb3_bin 2fc4b3c58f 2fc4b3c58e 0\nutf8mb3_bin  c6a662 0\nutf8mb3_bin c787c7af31 c5aac787c7af31 0\nutf8mb3_bin c79cc7b3 c79cc7b3 1\n\
    utf8mb3_bin 12c5a0 12c5a1 0\nutf8mb3_bin c29c c29c 1\nutf8mb3_bin  c89520 0\nutf8mb3_bin  2020 1\n\
    utf8mb3_bin c4bfc6a0c6a4c581c48ec890 c4bfc6a0c6a4c581c48ec890c294 0\nutf8mb3_bin c4947ec68bc3a655 c4947ec68b55 0\nutf8mb3_bin c28dc2b7c8be c28dc2b7c8be2020 1\nutf8mb3_bin c88fc8aac5a9c3b4c4a15e c88fc8aac5a9c3b4c4a1 0\n\
    utf8mb3_bin c2a5c783c5b8c784c39dc695 c2a5c783c5b8c784c39dc695 1\nutf8mb3_bin  202020 1\nutf8mb3_bin c48902 c48902 1\nutf8mb3_bin c2bcc4a2 c2bcc4a2202020 1\n\
    utf8mb3_bin c684c4a8c390c4b1c5adc7b7 c684c4a8c390c4b1c5ad 0\nutf8mb3_bin c487c786 c487c786 1\nutf8mb3_bin c39cc399c391c4b2c687 c39cc399c391c688 0\nutf8mb3_bin   1\n\
    utf8mb3_bin 03c8ba72c5bfc68cc5a2 03c8ba72c5bfc68cc5a2 1\nutf8mb3_bin c3a64423c3aac899c8b8 c3a64423c3aac899c8b8 1\nutf8mb3_bin c5bec6a7c587c592c8ae c5be60c6a7c587c592c8ae20 0\nutf8mb3_bin 3bc49c 3bc49c20c6be 0\n\
    utf8mb3_bin c790c681 c790c6812020 1\nutf8mb3_bin c982c68e23c8bb c982c68e23c8bb2020 1\nutf8mb3_bin c49c27c89bc3b1c4853c c49c27c89bc3b1c4853c 1\nutf8mb3_bin c685c39ec59bc790c49d c685c39ec59bc790c49dc78f 0\n\
    utf8mb3_bin c686c4b162c8adc894c380 c686c4b1c78762c8adc894c380 0\nutf8mb3_bin c2a8c892c786c48a10c6b3 c2a8c892c786c48a10c6b32020 1\nutf8mb3_bin 20c597c2a6c586 20c282c697c597c2a6c586 0\nutf8mb3_bin   1\n\
    utf8mb3_bin c6aa c6aa 1\nutf8mb3_bin c3aac7a8c8bd c3aac7a8c8bd 1\nutf8mb3_bin 54c5a5c6bac2adc8ab 54c5a5c6bac2adc8aa 0\nutf8mb3_bin c5a66ec59246c398 c5a64ec592c398 0\n\
    utf8mb4_bin c3957e71c497 c3957e71c4972020 1\nutf8mb4_bin c6adc4b7c3be c6adc4b7c3be2020 1\nutf8mb4_bin c49e c49e 1\nutf8mb4_bin c3b10f c3b10f 1\n\
    utf8mb4_bin  2020 1\nutf8mb4_bin 2ec596c894c28a61 2ec596c894c28a612020 1\nutf8mb4_bin c792c589e38080c488 c589e38080c48820 0\nutf8mb4_bin   1\n\
    utf8mb4_bin c3a7c4b0c6a2c4b4 c3a7c4b0c6a2c4b4 1\nutf8mb4_bin c2bf c2bf2020 1\nutf8mb4_bin c4a9c3bfc2b0c291c3a5c79f c4a9c3bfc2b0c291c3a5c5a9c79f 0\nutf8mb4_bin c7a8c5bb0ac98ec59c c7a8c5bb0ac98fc59c20 0\n\
    utf8mb4_bin 30c5bac3b5 30c5bac3b5c28d 0\nutf8mb4_bin c7a718 c7a71820 1\nutf8mb4_bin c5b2c8934e c5b2c8934ec385 0\nutf8mb4_bin  32 0\n\
    utf8mb4_bin c29236c7825cc5bcc48d c29236c7825cc4adc48fc5bcc48d 0\nutf8mb4_bin c29f c29f 1\nutf8mb4_bin c890c5b3 c890c5b3 1\nutf8mb4_bin c7b6c2b7c7be c2b7c895c7be 0\n\
    utf8mb4_bin c593c8a6c6a9c38bc49bc699 c592c6a9c38bc49bc699 0\nutf8mb4_bin c8bc5906 c8bc5906 1\nutf8mb4_bin c5b0 c5b02020 1\nutf8mb4_bin 5521c2bbc7b4 55c2bbc7b4 0\n\
    utf8mb4_bin c7bac68ec3aac6b1 c7bac389c68ec3aac6b1 0\nutf8mb4_bin c5b2c784c3b3 c5b2c784c3b3 1\nutf8mb4_bin  20 1\nutf8mb4_bin c2b3c2b0c79cc2be c2b3c2b0c79cc2be 1\n\
    utf8mb4_bin c3aa7f30c69c c3aa7f30c69c20 1\nutf8mb4_bin c89129c399c587c287 c89129c399c587c287 1\nutf8mb4_bin c38cc290c985c68f c38cc290c98529c68fc98a 0\nutf8mb4_bin  20 1\n\
    utf8mb4_bin c297c784c48ac7afc5bec8a9 c297c784c7afc5bec8a9 0\nutf8mb4_bin c8bac3be28c2b9c5a8 c8bac3be28c2b9c5a8 1\nutf8mb4_bin c8b3c281 c8b3c281 1\nutf8mb4_bin c58947c895c7bb c58947c895c7bb 1\n\
    utf8mb4_bin c3b9 c29dc3b9 0\nutf8mb4_bin c39c c3b6c39c 0\nutf8mb4_bin c5a9c3abc5917fc58b c5a9c3abc591477fc58b20 0\nutf8mb4_bin c288c894c495c292c780 c288c894c495c292c780 1\n\
    utf8mb4_bin c495c69a c495c69ac5b22020 0\nutf8mb4_bin   1\nutf8mb4_bin c889c48cc6bd c889c48cc6bd 1\nutf8mb4_bin c58823c5b1c4b3 c58823c5b1c4b3 1\n\
    utf8mb4_bin c3a73130c890c388c48e c3a73130c890c388c48e 1\nutf8mb4_bin 6a  0\nutf8mb4_bin c7b2c98f c7b2f09f9880 0\nutf8mb4_bin 62c8bd10c38fc382c5a6 62c8bd10c38fc382 0\n\
    utf8mb4_bin 7fc399c3b2 7fc399c3b2 1\nutf8mb4_bin c2ba61c797c3bec3ae03 c2ba61c797c3bec3ae03 1\nutf8mb4_bin 1dc5bf 1d53 0\nutf8mb4_bin  20 1\n\
    utf8mb4_bin 57 57c688 0\nutf8mb4_bin c382c8a5c4ab c382c8a5c4ab 1\nutf8mb4_bin  c58e20 0\nutf8mb4_bin c79c15 c79c152020 1\n\
    utf8mb4_bin c3a9c2abc88cc28e c3a9c2abc88cc28e2020 1\nutf8mb4_bin c5a0c98ac2be c5a0c98ac2be 1\nutf8mb4_bin c7b2c78bc592566ec98d c7b2c78bc592566ec98d 1\nutf8mb4_bin c68835c5a660 c68835c5a660 1\n\
    utf8mb4_bin c39dc78dc6aec6bac3813d c39dc78dc6aec6bac3813d 1\nutf8mb4_bin f09f9880c694c293c3acc5ad3a f09f9880c694c293c3acc5ad3a 1\nutf8mb4_bin c5b5c591c4b9c39a21 c5b5c591c4b9c39a21 1\nutf8mb4_bin c780c384 c780 0\n\
    utf8mb4_bin 07c7af 07c7af 1\nutf8mb4_bin   1\nutf8mb4_bin 38c5bac8bf 38c490c5bac48bc8bf 0\nutf8mb4_bin c4a1c6b0c4a1c6bcc89bc49a c4a1c6b0c4a0c6bcc89bc49a 0\n\
    utf8mb4_bin  2020 1\nutf8mb4_bin c39725c394 c39725c394 1\nutf8mb4_bin 6c6525c581c39fc4be 6c652553c4be 0\nutf8mb4_bin c6a1c981c7a53ec59b c6a1c598c981c7a53ec4b0c59b 0\n\
    utf8mb4_bin 754707c5b8c8bb 754707c5b8c8bb 1\nutf8mb4_bin 27c280 27c280 1\nutf8mb4_bin c2b572c498 c2b572c498 1\nutf8mb4_bin c6a4c29c00c389c980c6ad c6a4c29cc389c980c6adc6a0 0\n\
    utf8mb4_bin c4b9c590c6be c4b9c590c6be 1\nutf8mb4_bin c8a9 c8a9 1\nutf8mb4_bin c48c7fc291302d c48c7fc2912d 0\nutf8mb4_bin 41c891c8bd 41c891c8bd2020 1\n\
    utf8mb4_bin c48bc4a8c8bac2b7c7a8c3b7 c48bc4a8c8bac2b7c7a8c3b720 1\nutf8mb4_bin 00 0020 1\nutf8mb4_bin c4bbc8a8c487713d c4bbc8a8c48771 0\nutf8mb4_bin c2b8c89c15c5ad c2b8c491c89c15c5ad 0\n\
    utf8mb4_bin c8a64006c5aec895c297 c8a64006c5aec895c297 1\nutf8mb4_bin 1bc890c2a1c6b4 1bc890c2a1c6b4 1\nutf8mb4_bin c79e09c6a4 c79e09 0\nutf8mb4_bin 515d0bc2bd 515d0bc2bd 1\n\
    utf8mb4_bin c58fc88fc68ac4acc2a8c3bd c58fc88fc68ac4acc2a8c3bd 1\nutf8mb4_bin  20 1\nutf8mb4_bin 0ec385c3a7 0e5dc385c3a7 0\nutf8mb4_bin c29c2756c4a5 c29c2756c4a52020 1\n\
    utf8mb4_bin 41 41 1\nutf8mb4_bin 66c585 66c586 0\nutf8mb4_bin 40220e 40220e 1\nutf8mb4_bin c6bb0ac2b5c29d c6bb0ac2b5c29d 1\n\
    utf8mb4_bin c8b07dc4a3c683 c8b17dc4a3c683 0\nutf8mb4_bin c2ac c2ac04 0\nutf8mb4_bin c699c2a1 c699c2a1 1\nutf8mb4_bin c4a4  0\n\
    utf8mb4_0900_bin c699c688c8a0 c699c688c8a0 1\nutf8mb4_0900_bin c3be c3be20 0\nutf8mb4_0900_bin c6b4c283c5a9 c6b4 0\nutf8mb4_0900_bin c5b07e c3835bc5b07e 0\n\
    utf8mb4_0900_bin  20 0\nutf8mb4_0900_bin c685c5bfc7b7c98ac2bc c685c5bfc7b7c98ac2bc 1\nutf8mb4_0900_bin 53c790 53 0\nutf8mb4_0900_bin c4ba c4ba 1\n\
    utf8mb4_0900_bin c8a0c6aac8becc80cc80c8a4 c8a0c6aac8becc80cc80c8a4 1\nutf8mb4_0900_bin c698c285c39e c698c285c39e20 0\nutf8mb4_0900_bin 10 c78f10 0\nutf8mb4_0900_bin c2a3c5a2c288c4b0c58853 c2a3c5a2c288c4b0c588532020 0\n\
    utf8mb4_0900_bin 19323fc489c887 323fc488c887 0\nutf8mb4_0900_bin c380 c38020c7ac20 0\nutf8mb4_0900_bin c3b0c596c88fc98f c3b0c596c88fc98f 1\nutf8mb4_0900_bin c39e53c4a7 c3be53c4a7 0\n\
    utf8mb4_0900_bin   1\nutf8mb4_0900_bin 6f 6f 1\nutf8mb4_0900_bin c48bc5bfc981c8a9c8aac282 c48bc5bfc981c8aac282 0\nutf8mb4_0900_bin 5bc389 c38920 0\n\
    utf8mb4_0900_bin c58410c5a7c6a058 c584c5a7c6a078 0\nutf8mb4_0900_bin e38080 e38080 1\nutf8mb4_0900_bin  20 0\nutf8mb4_0900_bin  2020c5a0 0\n\
    utf8mb4_0900_bin c4b8c8bbc3b3 c4b805c8bbc3b3 0\nutf8mb4_0900_bin c88212c68dc792c2b3c782 c88312c68dc792c2b3c782 0\nutf8mb4_0900_bin c8a72209c285c4b7c7a8 c8a2c8a72209c4b7c7a8 0\nutf8mb4_0900_bin c7afc8b223c78e c7afc8b223 0\n\
    utf8mb4_0900_bin c388  0\nutf8mb4_0900_bin   1\nutf8mb4_0900_bin  c7b9c2b0 0\nutf8mb4_0900_bin c293043a c293043a 1\n\
    utf8mb4_0900_bin c494c58a44c3a2 c494c58a44c3a2542020 0\nutf8mb4_0900_bin   1\nutf8mb4_0900_bin c28962c5a5c38c c28962c5a5c5b7c38c 0\nutf8mb4_0900_bin c7acc2b2 c7acc2b2 1\n\
    utf8mb4_0900_bin c799c293c8a2c584c2a5c693 c799c293c8a2c584c2a5 0\nutf8mb4_0900_bin c395c4b1c484c794 c3b5c4b1c484c794c980 0\nutf8mb4_0900_bin c28bc2bcc2b3 c28bc2bcc2b3 1\nutf8mb4_0900_bin c7be c7bf 0\n\
    utf8mb4_0900_bin c58cc2acc28f c58cc39dc2acc28f 0\nutf8mb4_0900_bin c8a917 c8a91720 0\nutf8mb4_0900_bin c8a3c496c2b0 c8a3c496c2b0c3ad 0\nutf8mb4_0900_bin c5a96fc8a3c480 c5a96fc8a3c4812020 0\n\
    utf8mb4_0900_bin  512020 0\nutf8mb4_0900_bin c6b2 c6b2c7b0 0\nutf8mb4_0900_bin  c7992020 0\nutf8mb4_0900_bin  20 0\n\
    utf8mb4_0900_bin 14c98ec8aa08c799 14c98ec8aa08c79969c8a0 0\nutf8mb4_0900_bin c6b9c5b6c294c2b5 c5b6c294c2b52f 0\nutf8mb4_0900_bin  c38420 0\nutf8mb4_0900_bin   1\n\
    utf8mb4_0900_bin 5438 5438 1\nutf8mb4_0900_bin   1\nutf8mb4_0900_bin c29e c29e 1\nutf8mb4_0900_bin 16c485c3a0c989c983c384 16c485c3a0c989c3aec983c384 0\n\
    utf8mb4_0900_bin 48c5a0c6a0c5a0c7b9 48c5a0c6a0c5a0c7b9 1\nutf8mb4_0900_bin c888c383c493 c493 0\nutf8mb4_0900_bin c8b4c382c6a5c3b4c685 c8b4c6a5c3b4c685 0\nutf8mb4_0900_bin 66 6668 0\n\
    utf8mb4_0900_bin c2acc69d c2acc39cc69d 0\nutf8mb4_0900_bin c3b4c584c8abc5bc20 c894c3b4c584c8abc5bc20 0\nutf8mb4_0900_bin c2a6 c2a6 1\nutf8mb4_0900_bin c4b6c792 c4b6c792 1\n\
    utf8mb4_0900_bin  74 0\nutf8mb4_0900_bin   1\nutf8mb4_0900_bin c8af c8af 1\nutf8mb4_0900_bin c38fc2a2 c8b0c38fc2a220 0\n\
    utf8mb4_0900_bin c2a471 c2a471 1\nutf8mb4_0900_bin c681 c681 1\nutf8mb4_0900_bin c6bac4bcc39343 c8a6c6bac4bcc39343 0\nutf8mb4_0900_bin c7bfc882 c7bf 0\n\
    utf8mb4_0900_bin c3a832c489 c3a832c780c489c8ad 0\nutf8mb4_0900_bin c691c98c c691c98c 1\nutf8mb4_0900_bin c29ec599c591c78ec2ac c29ec599c591c78ec2ac 1\nutf8mb4_0900_bin 65c792c281c29d 65c792c281c29d 1\n\
    utf8mb4_0900_bin   1\nutf8mb4_0900_bin c2adc2866f c2adc286 0\nutf8mb4_0900_bin c3937038c98e c48fc3937038c98e 0\nutf8mb4_0900_bin c7b6c3a4c8a9c697c5a4c4ac c7b6c3a4c8a9c697c5a4c4ac20202020 0\n\
    utf8mb4_0900_bin   1\nutf8mb4_0900_bin c3a5c5b91861c48dc49d c3a5c5b91861c48dc49d 1\nutf8mb4_0900_bin c8b4c4bd c4bd 0\nutf8mb4_0900_bin c6b9 20 0\n\
    utf8mb4_0900_bin c7b5c589c681c49fc8b1 c7b5c589c681c49fc8b120202020 0\nutf8mb4_0900_bin c69cc395c6abc5a648c8a2 c69cc395c6abc5a648c8a2 1\nutf8mb4_0900_bin c4b7c4bac695 56c4bac695 0\nutf8mb4_0900_bin 1dc4a3 c4981d 0\n\
    utf8mb4_0900_bin 73 73 1\nutf8mb4_0900_bin c58ac3b2c3b9c890c59f c58ac3b2c3b9c890c59f 1\nutf8mb4_0900_bin 2f 2f 1\nutf8mb4_0900_bin c2abefbbbf c2abefbbbf 1\n\
    utf8mb4_0900_bin c89ec699 c695c89e 0\nutf8mb4_0900_bin 3cc3a7c4b3c599c59f 3cc3a7c4b3c599c59f 1\nutf8mb4_0900_bin 2b02c6a6c4a2 2b02c6a6c4a220 0\nutf8mb4_0900_bin 0765c28cf0a08080c4a16f 0765f0a08080c4a16f 0\n\
    utf8mb4_0900_bin  20 0\nutf8mb4_0900_bin 35c7a8 35c7a820 0\nutf8mb4_0900_bin 35c393c385 35c393c38520202020 0\nutf8mb4_0900_bin 30c5a5c49fc5bdc88d 30c5a5c49fc88d 0\n";
